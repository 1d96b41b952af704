ghost use Rattle.std.specs.Prelude.{◌≡◌, ◌<◌, ◌+◌, ◌^◌, ◌++◌, ◌∷◌, [], length, nat_lt, IfOk, MatchOption, if◌then◌else◌};
ghost use Rattle.vw_prog.specs.Ends.{one_more};

use std::alloc::{AllocError, Global};
use std::collections::VecDeque;
use std::marker::Model;
use vw_prog::Word;

/// A link of a world: the words on it, how many were sent over it and taken from it, and how many puts and takes were refused.
pub struct Lane {
    /// The words on the link, in the order of sending. Their room is taken when the lane is made.
    words: VecDeque<Word>,
    /// How many words it holds at most.
    room: u32,
    sent: u64,
    taken: u64,
    full: u64,
    empty: u64,
}

impl Drop for Lane {
    fn drop(self) {
        let Lane {
            words: _,
            room: _,
            sent: _,
            taken: _,
            full: _,
            empty: _,
        } = self;
    }
}

impl Model for Lane {
    ghost use Rattle.std.specs.Prelude.{◌≤◌, length};
    ghost use Rattle.std.specs.VecDeque.{deque_capacity};
    ghost use Rattle.vw_world.specs.Lanes.{SeenLane};

    ghost Value = { SeenLane };

    ghost view = { λ lane. record {
      words = lane.words.items;
      sent = lane.sent;
      taken = lane.taken;
      full = lane.full;
      empty = lane.empty;
      room = lane.room;
    } };

    ghost invariant = { λ lane. (length lane.words.items ≤ lane.room)
        × (lane.room ≤ deque_capacity lane.words) };
}

impl Lane {
    /// A lane without words. It takes the memory for those that it holds at most.
    pub fn make(alloc: Global, room: u32) -> Result<Self, AllocError>
        ensures { IfOk result (λ lane. lane
            ≡ record { words = []; sent = 0; taken = 0; full = 0; empty = 0; room = room }) }
    {
        Ok(Lane {
            words: VecDeque::with_capacity(alloc, room as usize)?,
            room,
            sent: 0,
            taken: 0,
            full: 0,
            empty: 0,
        })
    }

    /// How many words are on the link.
    pub fn held(&self) -> u32
        ensures { result ≡ length self.now.words }
    {
        let _room = self.room;
        self.words.len() as u32
    }

    /// Puts a word behind the others, where there is room.
    pub fn put(&mut self, word: Word) -> bool
        requires { self.old.sent + 1 < 2 ^ 64 }
        ensures answer { result ≡ nat_lt (length self.old.words) self.old.room }
        ensures put { self.new ≡ (if result
            then record self.old { words = self.old.words ++ word ∷ []; sent = self.old.sent + 1 }
            else record self.old { full = one_more self.old.full }) }
    {
        if self.words.len() >= self.room as usize {
            self.full = self.full.saturating_add(1);
            return false;
        }
        self.words.push_back_reserved(word);
        self.sent += 1;
        true
    }

    /// Takes the first word, where there is one.
    pub fn take(&mut self) -> Option<Word>
        requires { self.old.taken + 1 < 2 ^ 64 }
        ensures { MatchOption result
            ((self.old.words ≡ []) × (self.new
            ≡ record self.old { empty = one_more self.old.empty }))
            (λ word. (self.old.words ≡ word ∷ self.new.words) × (self.new
            ≡ record self.old { words = self.new.words; taken = self.old.taken + 1 })) }
    {
        match self.words.pop_front() {
            Some(word) => {
                self.taken += 1;
                Some(word)
            }
            None => {
                self.empty = self.empty.saturating_add(1);
                None
            }
        }
    }
}

//! The words that were taken from lifted links: one piece for each lift.
ghost use Rattle.std.specs.Prelude.{◌≡◌, ◌==◌, length, slice_get, IfOk, if◌then◌else◌};
ghost use Rattle.vw_link.specs.Chains.{IsNear, IsPassed, IsRoom, lifts_of, lift_words};

use std::alloc::{AllocError, Global};
use vw_prog::Word;

/// The pieces of lifted links, newest first.
#[cycle(chain)]
pub enum Chain {
    /// No piece.
    End,
    /// A piece, and behind it the older ones.
    Hung(Box<Piece>),
}

/// The words that were taken from a link between a lay and a lift, and the pieces that are older.
#[cycle(chain)]
#[derive(Drop)]
pub struct Piece {
    pub link: u32,
    /// In the order in which they were taken.
    pub words: Vec<Word>,
    pub older: Chain,
}

/// A loop, since a chain is as long as a run has lifts.
impl Drop for Chain {
    fn drop(mut self) {
        loop {
            match self {
                Chain::End => return,
                Chain::Hung(piece) => {
                    let Piece { older, .. } = Box::into_inner(piece);
                    self = older;
                }
            }
        }
    }
}

impl Piece {
    /// A piece for a link, with room for so many words. It takes the memory for all of it.
    pub fn make(alloc: Global, link: u32, room: u64) -> Result<Box<Piece>, AllocError>
        ensures { IfOk result (λ piece. IsRoom link room piece.value) }
    {
        let words = Vec::with_capacity(alloc, room as usize)?;
        let piece = Piece {
            link,
            words,
            older: Chain::End,
        };
        Ok(Box::new(alloc, piece)?)
    }

    /// How many words it has of a link.
    fn count(&self, link: u32) -> usize
        ensures { result ≡ (if link == self.now.link then length self.now.words.items else 0) }
    {
        if link == self.link {
            self.words.len()
        } else {
            0
        }
    }
}

/// Leaves out the newest pieces while all their words of a link are behind a number. So many words of the link were counted, from the
/// newest on; the answer has the pieces that are left, and how many of their words were counted.
fn passed(from: &Chain, counted: u128, link: u32, number: u64) -> (&Chain, u128)
    ensures { IsPassed link number (lifts_of from.now) counted (lifts_of result.0.now) result.1 }
{
    let mut from = from;
    let mut counted = counted;
    while let Chain::Hung(piece) = from {
        let count = piece.count(link) as u128;
        if counted <= u128::from(number) + count {
            break;
        }
        counted -= count;
        from = &piece.older;
    }
    (from, counted)
}

/// The word with a number, where it is in the newest piece or nowhere, and so many words are in all pieces.
fn newest_of(from: &Chain, counted: u128, link: u32, number: u64) -> Option<Word>
    requires { IsNear link number 0 (lifts_of from.now) counted }
    ensures { result ≡ slice_get (lift_words link (lifts_of from.now)) number }
{
    let Chain::Hung(piece) = from else {
        return None;
    };
    let number = u128::from(number);
    if counted <= number {
        return None;
    }
    let index = number + piece.count(link) as u128 - counted;
    Some(piece.words[index as usize])
}

/// The word with a number, from 0, among those that a chain has of a link, oldest first. It takes no memory.
pub fn word_of(chain: &Chain, link: u32, number: u64) -> Option<Word>
    ensures { result ≡ slice_get (lift_words link (lifts_of chain.now)) number }
{
    let mut from = chain;
    let mut counted = 0;
    let mut rest = chain;
    while let Chain::Hung(piece) = rest {
        rest = &piece.older;
        (from, counted) = passed(from, counted + piece.count(link) as u128, link, number);
    }
    newest_of(from, counted, link, number)
}

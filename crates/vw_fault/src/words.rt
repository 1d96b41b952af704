//! Words of 64 lanes, in each of which another fault is run.
ghost use Rattle.std.specs.Prelude.{◌≡◌, ◌<◌, ℕ, length, replicate, slice_index_or, slice_set, IfOk, Bool};
ghost use Rattle.vw_net.specs.TruthTable.{bit_of};

use std::alloc::{AllocError, Global};
use std::marker::Model;

/// A word for each net or latch. Bit k of a word is that of lane k.
pub struct Words {
    items: Vec<u64>,
}

impl Drop for Words {
    fn drop(self) {
        let Words { items: _ } = self;
    }
}

impl Model for Words {
    ghost use Rattle.std.specs.Prelude.{ℕ, List};

    ghost Value = { List ℕ };

    ghost view = { λ words. words.items.items };
}

impl Words {
    /// So many times this word.
    pub fn filled(alloc: Global, word: u64, count: usize) -> Result<Self, AllocError>
        ensures { IfOk result (λ words. words ≡ replicate count word) }
    {
        Ok(Words {
            items: vec![in alloc; word; count]?,
        })
    }

    /// How many words there are.
    pub fn len(&self) -> usize
        ensures { result ≡ length self.now }
    {
        self.items.len()
    }

    /// The word at a place.
    pub fn get(&self, at: usize) -> u64
        requires { at < length self.now }
        ensures { result ≡ slice_index_or self.now at 0 }
    {
        self.items[at]
    }

    /// Writes the word at a place.
    pub fn set(&mut self, at: usize, word: u64)
        requires { at < length self.old }
        ensures { self.new ≡ slice_set self.old at word }
    {
        self.items[at] = word;
    }
}

/// The word with this bit in each lane.
pub fn spread(bit: bool) -> u64
    ensures { (lane : ℕ) → lane < 64 → bit_of result lane ≡ bit }
{
    if bit { u64::MAX } else { 0 }
}

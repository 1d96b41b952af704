//! Sets of words.
ghost use Rattle.std.specs.Prelude.{◌≡◌, ◌≤◌, ◌||◌, not, false, IfOk, OnOk, filter, find, length, map};
ghost use Rattle.std.specs.HashMap.{spare};
ghost use Rattle.std.specs.Str.{bytes_eq};
ghost use Rattle.vw_design.specs.Distinct.{has_name};
ghost use Rattle.vw_design.specs.Paths.{Word, lent};
ghost use Rattle.vw_design.specs.WordSets.{has_word};

use crate::item::Bind;
use std::alloc::{AllocError, Global};
use std::collections::HashMap;
use std::hash::{BuildHasherDefault, DefaultHasher};
use vw_outside::Name;

/// A set of words that lie elsewhere. Its hasher is SipHash: whoever writes a text chooses its words, and under the map's
/// own hasher it is easy to find many words that collide.
pub struct WordSet<'a> {
    pub words: HashMap<&'a [u8], (), BuildHasherDefault<DefaultHasher>>,
}

impl Drop for WordSet<'_> {
    fn drop(self) {
        let WordSet { words: _ } = self;
    }
}

impl<'a> WordSet<'a> {
    /// No word. It takes no memory.
    pub fn none(alloc: Global) -> Self
        ensures { (word : Word) → has_word result.words word ≡ false }
    {
        WordSet {
            words: HashMap::with_hasher(alloc, BuildHasherDefault::new()),
        }
    }

    /// Whether a word is in the set.
    pub fn has(&self, word: &[u8]) -> bool
        ensures { result ≡ has_word self.now.words word.now }
    {
        self.words.get(word).is_some()
    }

    /// Adds a word, and says whether it is new.
    pub fn insert(&mut self, word: &'a [u8]) -> Result<bool, AllocError>
        ensures is_new { IfOk result (λ is_new. is_new ≡ not (has_word self.old.words word.now)) }
        ensures words { OnOk result ((other : Word) → has_word self.new.words other
            ≡ (bytes_eq word.now other || has_word self.old.words other)) }
    {
        let old = self.words.insert(word, ())?;
        Ok(old.is_none())
    }

    /// Takes memory for so many words more.
    pub fn reserve(&mut self, count: usize) -> Result<(), AllocError>
        ensures words { (word : Word) → has_word self.new.words word ≡ has_word self.old.words word }
        ensures room { OnOk result (count ≤ spare self.new.words) }
    {
        self.words.reserve(count)
    }

    /// Adds names.
    pub fn add_all(&mut self, names: &'a [Name]) -> Result<(), AllocError>
        ensures { OnOk result ((other : Word) → has_word self.new.words other
            ≡ (has_name names.now other || has_word self.old.words other)) }
    {
        for name in names {
            self.insert(name.as_slice())?;
        }
        Ok(())
    }

    /// Adds the formals of bindings.
    pub fn add_formals(&mut self, binds: &'a [Bind]) -> Result<(), AllocError>
        ensures { OnOk result ((other : Word) → has_word self.new.words other
            ≡ (has_name (map (λ bind. bind.formal) binds.now) other
            || has_word self.old.words other)) }
    {
        for bind in binds {
            self.insert(bind.formal().as_slice())?;
        }
        Ok(())
    }

    /// The first of some names that is in the set.
    pub fn first_in<'n>(&self, names: &'n [Name]) -> Option<&'n Name>
        ensures { lent result ≡ find (has_word self.now.words) names.now }
    {
        for name in names {
            if self.has(name.as_slice()) {
                return Some(name);
            }
        }
        None
    }

    /// The first of some names that isn't in the set.
    pub fn first_out<'n>(&self, names: &'n [Name]) -> Option<&'n Name>
        ensures { lent result ≡ find (λ name. not (has_word self.now.words name)) names.now }
    {
        for name in names {
            if !self.has(name.as_slice()) {
                return Some(name);
            }
        }
        None
    }

    /// How many of some names aren't in the set.
    pub fn count_out(&self, names: &[Name]) -> usize
        ensures { result
            ≡ length (filter (λ name. not (has_word self.now.words name)) names.now) }
    {
        let mut count = 0;
        for name in names {
            if !self.has(name.as_slice()) {
                count += 1;
            }
        }
        count
    }
}

//! Tables of pairs of numbers.
ghost use Rattle.std.specs.Prelude.{◌≡◌, IfOk};
ghost use Rattle.vw_ready.specs.Pairs.{HasPairs, pair_in};

use std::alloc::{AllocError, Global};
use std::collections::HashMap;
use std::hash::{BuildHasherDefault, DefaultHasher};

/// The first place of each pair of numbers in a list. The hasher is SipHash: whoever writes a plan chooses its pairs, and
/// under the map's own hasher it is easy to find many that collide.
pub struct PairTable {
    pub places: HashMap<(u32, u32), usize, BuildHasherDefault<DefaultHasher>>,
}

impl Drop for PairTable {
    fn drop(self) {
        let PairTable { places: _ } = self;
    }
}

impl PairTable {
    /// The table of these pairs. It is filled from the end, so that the first of equal pairs stays.
    pub fn of(alloc: Global, pairs: &[(u32, u32)]) -> Result<Self, AllocError>
        ensures { IfOk result (λ table. HasPairs pairs.now table.places) }
    {
        let hasher = BuildHasherDefault::new();
        let mut places = HashMap::with_capacity_and_hasher(alloc, pairs.len(), hasher)?;
        for place in (0..pairs.len()).rev() {
            places.insert(pairs[place], place)?;
        }
        Ok(PairTable { places })
    }

    /// The first place of a pair.
    pub fn first(&self, one: u32, other: u32) -> Option<usize>
        ensures { result ≡ pair_in self.now.places one other }
    {
        self.places.get(&(one, other)).copied()
    }
}

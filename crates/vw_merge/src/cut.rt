//! Cuts of a net: some nets, its leaves, whose values decide its value.
ghost use Rattle.std.specs.Prelude.{◌≤◌, length};

use crate::lists::long_at;

/// What stands in the place of a leaf that there isn't. No net has this number.
const NO_LEAF: u32 = u32::MAX;

/// The most gates between the leaves of a cut and its net.
const MOST_BETWEEN: u32 = 64;

/// A cut of at most six leaves.
#[derive(Clone, Copy)]
pub struct Cut {
    /// The leaves, the least first, and behind them `NO_LEAF`.
    leaves: [u32; 6],
    /// A bit for each leaf, which leaves may share.
    mask: u64,
    /// How many gates stand between. One that is reached in two ways counts twice.
    between: u32,
    /// The less, the better is the cut: the tables that it asks for, and then its leaves.
    pub rank: u64,
}

impl Cut {
    /// The cut without leaves.
    pub fn none() -> Self {
        Cut {
            leaves: [NO_LEAF; 6],
            mask: 0,
            between: 0,
            rank: 0,
        }
    }

    /// The cut whose leaf is the net itself.
    pub fn itself(net: u32) -> Self {
        let mut cut = Cut::none();
        cut.leaves[0] = net;
        cut.mask = 1 << (net % 64);
        cut
    }

    /// How many leaves it has.
    fn count(&self) -> usize
        ensures { result ≤ 6 }
    {
        for i in 0..6 {
            if self.leaves[i] == NO_LEAF {
                return i;
            }
        }
        6
    }

    /// The leaves, the least first.
    pub fn leaves(&self) -> &[u32]
        ensures { length result.now ≤ 6 }
    {
        &self.leaves[..self.count()]
    }

    /// Whether it has the same leaves as another.
    pub fn is_same(&self, other: &Cut) -> bool {
        if self.mask != other.mask {
            return false;
        }
        for i in 0..6 {
            if self.leaves[i] != other.leaves[i] {
                return false;
            }
        }
        true
    }

    /// Whether the net itself is its only leaf.
    pub fn is_only(&self, net: u32) -> bool {
        self.leaves[0] == net && self.leaves[1] == NO_LEAF
    }

    /// Puts a leaf among those that are there. It tells whether there was room.
    fn put(&mut self, leaf: u32) -> bool {
        let mut carried = leaf;
        for i in 0..6 {
            let here = self.leaves[i];
            if here == carried {
                return true;
            }
            if carried < here {
                self.leaves[i] = carried;
                carried = here;
            }
        }
        carried == NO_LEAF
    }

    /// The leaves of both, where they are at most six and not too many gates stand between.
    pub fn joined(&self, other: &Cut) -> Option<Cut> {
        let mask = self.mask | other.mask;
        if mask.count_ones() > 6 {
            return None;
        }
        let mut cut = *self;
        for leaf in other.leaves() {
            if !cut.put(*leaf) {
                return None;
            }
        }
        cut.mask = mask;
        cut.between = self.between.saturating_add(other.between);
        if cut.between < MOST_BETWEEN {
            Some(cut)
        } else {
            None
        }
    }

    /// The same with one gate more between.
    pub fn behind_gate(&self) -> Cut {
        let mut cut = *self;
        cut.between = self.between.saturating_add(1);
        cut
    }

    /// The same, ranked by what its leaves ask for.
    pub fn ranked(&self, flows: &[u64]) -> Cut {
        let mut flow: u64 = 0;
        for leaf in self.leaves() {
            flow = flow.saturating_add(long_at(flows, *leaf));
        }
        let mut cut = *self;
        cut.rank = flow.saturating_mul(8).saturating_add(self.count() as u64);
        cut
    }

    /// What its leaves ask for.
    pub fn flow(&self) -> u64 {
        self.rank / 8
    }
}

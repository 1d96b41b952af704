//! What is counted of a design.
ghost use Rattle.std.specs.Prelude.{◌≡◌};

use crate::quantity::Quantity;
use vw_net::Sequence;

/// How much stands before an item of a model: over the items before it, with all that they place.
#[derive(Clone, Copy, Debug, PartialEq, Eq)]
pub struct Before {
    /// Gates and latches.
    pub cells: u32,
    /// Instances.
    pub instances: u32,
}

/// The sizes of a design within the limits.
#[derive(Drop)]
pub struct Sizes {
    pub instances: u32,
    pub cells: u32,
    pub before: Sequence<Sequence<Before>>,
}

impl Sizes {
    /// How many instances there are, the root counted.
    pub fn instances(&self) -> u32
        ensures { result ≡ self.now.instances }
    {
        self.instances
    }

    /// How many gates and latches there are, over all instances.
    pub fn cells(&self) -> u32
        ensures { result ≡ self.now.cells }
    {
        self.cells
    }

    /// For each model by its number, and each of its items, how much stands before the item. It says nothing of models
    /// that aren't reached.
    pub fn before(&self) -> &[Sequence<Before>]
        ensures { result.now ≡ self.now.before }
    {
        self.before.as_slice()
    }
}

/// What counting a design gives.
#[derive(Drop)]
pub enum Measured {
    /// Its sizes, where each quantity is within its limit.
    Fits(Sizes),
    /// The first quantity that is above its limit.
    TooBig(Quantity),
}

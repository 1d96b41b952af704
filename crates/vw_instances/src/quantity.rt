//! The quantities with a limit.
ghost use Rattle.std.specs.Prelude.{◌≡◌};
ghost use Rattle.vw_design.specs.Limits.{limit_of};
ghost use Rattle.vw_instances.specs.Quantities.{counted_of, quantity_word};

use vw_design::{MOST_BINDINGS, MOST_DEPTH, MOST_INSTANCES};
use vw_net::{MOST_CELLS, MOST_DESIGN_OUTPUTS, MOST_INPUTS};

/// A quantity of a design that has a limit, in the order in which they are tried.
#[derive(Clone, Copy, Debug, PartialEq, Eq)]
pub enum Quantity {
    /// The inputs of the root that it doesn't declare as clocks.
    Inputs,
    /// The outputs of the root.
    Outputs,
    /// The instances, the root counted.
    Instances,
    /// The bindings of `.subckt` items, over all instances.
    Bindings,
    /// The gates and latches, over all instances.
    Cells,
    /// The greatest depth of an instance; that of the root is 1.
    Depth,
}

impl Quantity {
    /// The greatest amount that is allowed. The limits are this project's choice.
    pub fn limit(self) -> u64
        ensures { result ≡ limit_of (counted_of self) }
    {
        match self {
            Quantity::Inputs => u64::from(MOST_INPUTS),
            Quantity::Outputs => u64::from(MOST_DESIGN_OUTPUTS),
            Quantity::Instances => u64::from(MOST_INSTANCES),
            Quantity::Bindings => u64::from(MOST_BINDINGS),
            Quantity::Cells => u64::from(MOST_CELLS),
            Quantity::Depth => u64::from(MOST_DEPTH),
        }
    }

    /// The word by which messages call it.
    pub fn name(self) -> &'static [u8]
        ensures { result.now ≡ quantity_word self }
    {
        match self {
            Quantity::Inputs => b"inputs",
            Quantity::Outputs => b"outputs",
            Quantity::Instances => b"instances",
            Quantity::Bindings => b"bindings",
            Quantity::Cells => b"cells",
            Quantity::Depth => b"depth",
        }
    }
}

//! The quantities of a design.
ghost use Rattle.std.specs.Prelude.{◌≡◌, IfOk, find, nat_lt, option_map};
ghost use Rattle.vw_design.specs.Limits.{limit_of};
ghost use Rattle.vw_instances.specs.Steps.Counting.{AreCountingTables};
ghost use Rattle.vw_instances.specs.Quantities.{counted_of};
ghost use Rattle.vw_instances.specs.Steps.Quantified.{total_of, first_above, AreTotals};

use crate::counting_tables::CountingTables;
use crate::inputs::input_count;
use crate::quantity::Quantity;
use std::alloc::{AllocError, Global};
use vw_design::Design;

/// How much a design has of each quantity.
#[derive(Clone, Copy, Debug, PartialEq, Eq)]
pub struct QuantityTotals {
    pub inputs: u64,
    pub outputs: u64,
    pub instances: u64,
    pub bindings: u64,
    pub cells: u64,
    pub depth: u64,
}

impl QuantityTotals {
    /// How much of a quantity.
    fn of(&self, quantity: Quantity) -> u64
        ensures { result ≡ total_of self.now (counted_of quantity) }
    {
        match quantity {
            Quantity::Inputs => self.inputs,
            Quantity::Outputs => self.outputs,
            Quantity::Instances => self.instances,
            Quantity::Bindings => self.bindings,
            Quantity::Cells => self.cells,
            Quantity::Depth => self.depth,
        }
    }

    /// Whether a quantity is above its limit.
    fn is_above(&self, quantity: Quantity) -> bool
        ensures { result
            ≡ nat_lt (limit_of (counted_of quantity)) (total_of self.now (counted_of quantity)) }
    {
        quantity.limit() < self.of(quantity)
    }

    /// The first quantity that is above its limit.
    pub fn above(&self) -> Option<Quantity>
        ensures { option_map counted_of result ≡ first_above self.now }
    {
        if self.is_above(Quantity::Inputs) {
            Some(Quantity::Inputs)
        } else if self.is_above(Quantity::Outputs) {
            Some(Quantity::Outputs)
        } else if self.is_above(Quantity::Instances) {
            Some(Quantity::Instances)
        } else if self.is_above(Quantity::Bindings) {
            Some(Quantity::Bindings)
        } else if self.is_above(Quantity::Cells) {
            Some(Quantity::Cells)
        } else if self.is_above(Quantity::Depth) {
            Some(Quantity::Depth)
        } else {
            None
        }
    }
}

/// The quantities of a design, from its root's.
pub fn totals_of(
    alloc: Global,
    design: &Design,
    tables: &CountingTables,
) -> Result<QuantityTotals, AllocError>
    requires { AreCountingTables design.now tables.now }
    ensures { IfOk result (AreTotals design.now) }
{
    let root = &design.models()[0];
    Ok(QuantityTotals {
        inputs: input_count(alloc, root)? as u64,
        outputs: root.outputs().len() as u64,
        instances: 1 + tables.instances[0] as u64,
        bindings: tables.bindings[0] as u64,
        cells: tables.cells[0] as u64,
        depth: 1 + tables.levels[0] as u64,
    })
}

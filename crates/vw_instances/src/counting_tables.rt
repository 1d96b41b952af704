//! The counts of all models.
ghost use Rattle.std.specs.Prelude.{IfOk};
ghost use Rattle.vw_design.specs.ModelNumbers.{IsModelOrder};
ghost use Rattle.vw_instances.specs.Steps.Counting.{AreCountingTables};

use crate::amounts::counts_of;
use crate::measure::Measure;
use std::alloc::{AllocError, Global};
use vw_models::Targets;

/// For each model by its number, how much it has, with all that it places.
pub struct CountingTables {
    /// The instances below one of the model.
    pub instances: Vec<u32>,
    /// The bindings.
    pub bindings: Vec<u32>,
    /// The gates and latches.
    pub cells: Vec<u32>,
    /// The levels of instances below one of the model.
    pub levels: Vec<u32>,
}

impl Drop for CountingTables {
    fn drop(self) {
        let CountingTables {
            instances: _,
            bindings: _,
            cells: _,
            levels: _,
        } = self;
    }
}

/// The tables of a design.
pub fn tables_of(
    alloc: Global,
    targets: &Targets,
    order: &[u32],
) -> Result<CountingTables, AllocError>
    requires order { IsModelOrder targets.now.design.now order.now }
    ensures { IfOk result (AreCountingTables targets.now.design.now) }
{
    Ok(CountingTables {
        instances: counts_of(alloc, Measure::Instances, targets, order)?,
        bindings: counts_of(alloc, Measure::Bindings, targets, order)?,
        cells: counts_of(alloc, Measure::Cells, targets, order)?,
        levels: counts_of(alloc, Measure::Levels, targets, order)?,
    })
}

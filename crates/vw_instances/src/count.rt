//! The sizes of a design.
ghost use Rattle.std.specs.Prelude.{◌≡◌, IfOk};
ghost use Rattle.vw_design.specs.ModelNumbers.{IsModelOrder};
ghost use Rattle.vw_instances.specs.Sizes.{IsMeasured};

use crate::counting_tables::tables_of;
use crate::entries::all_entries;
use crate::sizes::{Measured, Sizes};
use crate::totals::totals_of;
use std::alloc::{AllocError, Global};
use vw_models::Targets;
use vw_net::Sequence;

/// The sizes of a design, or the first quantity that is above its limit. It goes over the models a fixed number of times
/// and expands none: in `order` the models that are reached stand behind those that they place.
pub fn sizes_of(alloc: Global, targets: &Targets, order: &[u32]) -> Result<Measured, AllocError>
    requires order { IsModelOrder targets.now.design.now order.now }
    ensures { IfOk result (IsMeasured targets.now.design.now) }
{
    let tables = tables_of(alloc, targets, order)?;
    let totals = totals_of(alloc, targets.design, &tables)?;
    if let Some(quantity) = totals.above() {
        return Ok(Measured::TooBig(quantity));
    }
    let before = all_entries(alloc, targets, &tables)?;
    Ok(Measured::Fits(Sizes {
        instances: totals.instances as u32,
        cells: totals.cells as u32,
        before: Sequence::of(before),
    }))
}

//! A period that no plan for given chips can undercut.
ghost use Rattle.std.specs.Prelude.{◌≡◌, ◌≤◌, length, IfOk};
ghost use Rattle.std.specs.List.{All};
ghost use Rattle.vw_plan.specs.Chips.{IsChip};
ghost use Rattle.vw_plan.specs.declared.need.Need.{Need};
ghost use Rattle.vw_bound.specs.Bounds.{IsPeriodBound};
ghost use Rattle.vw_bound.specs.Pins.{PairsFit};
ghost use Rattle.vw_bound.specs.PlacedDesigns.{placed_design};
ghost use Rattle.vw_bound.specs.Times.{depth_bound};

use crate::depth::due;
use crate::laws::{depths_bound_periods, pairs_fit_in_periods};
use crate::placed::Placed;
use crate::rooms::pins_bound;
use crate::table::soon_table;
use std::alloc::{AllocError, Global};
use vw_delays::Delays;
use vw_net::Ordered;
use vw_plan::Board;
use vw_wires::needed;

/// A period that no sound plan for these chips can undercut. It is at least what the depth of the design asks for, by the
/// delays of the board, and what the pins of each node need for its pairs, none of which can come sooner than its depth.
///
/// It takes memory for a number for each net and a few for each needed pair, and goes over each gate and each of its inputs
/// once, and over the pairs once for each node of the board.
pub fn bound(
    alloc: Global,
    ordered: &Ordered,
    board: &Board,
    chip_of: &[u32],
) -> Result<u64, AllocError>
    requires each { length chip_of.now ≡ length ordered.now.flat.cells }
    requires chips { All (IsChip board.now) chip_of.now }
    ensures bound { IfOk result (IsPeriodBound (placed_design ordered.now board.now chip_of.now)) }
    ensures depth { IfOk result (λ period.
        depth_bound (placed_design ordered.now board.now chip_of.now) ≤ period) }
    ensures pins { IfOk result (PairsFit (placed_design ordered.now board.now chip_of.now)) }
{
    depths_bound_periods();
    pairs_fit_in_periods();
    let delays = Delays::of(alloc, board)?;
    let needs = needed(alloc, ordered, chip_of)?;
    let placed = Placed {
        ordered,
        board,
        chip_of,
        delays: &delays,
    };
    let table = soon_table(alloc, &placed)?;
    let depth = due(&placed, &table, needs.as_slice());
    Ok(depth.max(pins_bound(alloc, &placed, &table, needs.as_slice())?))
}

//! A period that no plan with shortest wires can undercut.
ghost use Rattle.std.specs.Prelude.{◌≡◌, ◌≤◌, length, IfOk};
ghost use Rattle.std.specs.List.{All};
ghost use Rattle.vw_plan.specs.Chips.{IsChip};
ghost use Rattle.vw_plan.specs.Needs.{needed_pairs};
ghost use Rattle.vw_bound.specs.Given.{design_in};
ghost use Rattle.vw_bound.specs.Pins.{PairsFit};
ghost use Rattle.vw_bound.specs.PlacedDesigns.{placed_design};
ghost use Rattle.vw_bound.specs.Times.{depth_bound};
ghost use Rattle.vw_short_bound.specs.Shortest.{IsShortBound};
ghost use Rattle.vw_bound.specs.Tables.{AreLow};
ghost use Rattle.vw_short_bound.specs.Steps.Inlets.{IsBelowPeriods};
ghost use Rattle.vw_short_bound.specs.Steps.Plans.{AreSoonest};

use crate::pressing::pressed_nodes;
use crate::soonest::soonest;
use crate::tables::tables_of;
use std::alloc::{AllocError, Global};
use vw_board::Distances;
use vw_bound::{Placed, bound, due, soon_table};
use vw_delays::Delays;
use vw_net::{Cell, Ordered};
use vw_plan::{Board, Need};
use vw_wires::needed;

/// How many inlets are looked at, at most: some tenths of a second.
const MOST_LOOKS: u64 = 1 << 25;

/// Notes the cell that drives a net.
fn note(wanted: &mut [bool], inputs: u32, net: u32)
    ensures { length wanted.new ≡ length wanted.old }
{
    if inputs <= net {
        let number = (net - inputs) as usize;
        if number < wanted.len() {
            wanted[number] = true;
        }
    }
}

/// The cells whose nets others wait for: those that are needed at other nodes, and those that latches read.
fn wanted_of(alloc: Global, placed: &Placed, needs: &[Need]) -> Result<Vec<bool>, AllocError> {
    let flat = placed.ordered.flat();
    let mut wanted = vec![in alloc; false; flat.cells().len()]?;
    for need in needs {
        note(&mut wanted, flat.inputs(), need.net());
    }
    for cell in flat.cells() {
        if let Cell::Latch { d, .. } = cell {
            note(&mut wanted, flat.inputs(), *d);
        }
    }
    Ok(wanted)
}

/// The least microcycle in which each net can have its value, where inlets are counted by the times of a table.
fn soonest_by(
    alloc: Global,
    placed: &Placed,
    distances: &Distances,
    table: &[u64],
    needs: &[Need],
    wanted: &[bool],
) -> Result<Vec<u64>, AllocError>
    requires distances { distances.now ≡ placed.now.board.now }
    requires low { AreLow table.now }
    requires needs { needs.now
        ≡ needed_pairs placed.now.ordered.now.flat placed.now.chip_of.now }
    ensures { IfOk result (λ soon. AreSoonest (design_in placed.now) soon.items) }
{
    let tables = tables_of(alloc, placed, distances, table, needs)?;
    let soon = soonest(alloc, placed, &tables, wanted, MOST_LOOKS)?;
    Ok(soon)
}

/// The last of what the pins and the depth ask for, by nets that wait for pins. The first time round, inlets are counted by
/// their depths, and then by what was found, since the order in which they are counted matters.
fn pressed_bound(
    alloc: Global,
    placed: &Placed,
    distances: &Distances,
    needs: &[Need],
) -> Result<u64, AllocError>
    requires distances { distances.now ≡ placed.now.board.now }
    requires needs { needs.now
        ≡ needed_pairs placed.now.ordered.now.flat placed.now.chip_of.now }
    ensures { IfOk result (IsBelowPeriods (design_in placed.now)) }
{
    let wanted = wanted_of(alloc, placed, needs)?;
    let by_depth = soon_table(alloc, placed)?;
    let first = soonest_by(alloc, placed, distances, &by_depth, needs, &wanted)?;
    let tables = tables_of(alloc, placed, distances, &first, needs)?;
    let soon = soonest(alloc, placed, &tables, &wanted, MOST_LOOKS)?;
    let last = due(placed, &soon, needs);
    Ok(last.max(pressed_nodes(alloc, placed, &soon, &tables)?))
}

/// A period that no sound plan for these chips can undercut in which each wire has as many hops as its nodes are apart. It
/// is at least the [bound](vw_bound::bound) of all sound plans. Inside the design, a gate that waits for nets of other
/// nodes has its value no sooner than the links over which these can come last have had room for them.
///
/// It takes memory for a bit for each gate and each net that comes to the gate's node, and goes over each gate and each of
/// its inputs once. It counts such nets some 60 million times at most, and for further gates takes their depth alone.
pub fn short_bound(
    alloc: Global,
    ordered: &Ordered,
    board: &Board,
    chip_of: &[u32],
) -> Result<u64, AllocError>
    requires each { length chip_of.now ≡ length ordered.now.flat.cells }
    requires chips { All (IsChip board.now) chip_of.now }
    ensures bound { IfOk result (IsShortBound (placed_design ordered.now board.now chip_of.now)) }
    ensures depth { IfOk result (λ period.
        depth_bound (placed_design ordered.now board.now chip_of.now) ≤ period) }
    ensures pins { IfOk result (PairsFit (placed_design ordered.now board.now chip_of.now)) }
{
    let least = bound(alloc, ordered, board, chip_of)?;
    let delays = Delays::of(alloc, board)?;
    let distances = Distances::of(alloc, board)?;
    let needs = needed(alloc, ordered, chip_of)?;
    let placed = Placed {
        ordered,
        board,
        chip_of,
        delays: &delays,
    };
    let pressed = pressed_bound(alloc, &placed, &distances, needs.as_slice())?;
    Ok(least.max(pressed))
}

//! The least period in which the pins of each node have room for its pairs.
ghost use Rattle.std.specs.Prelude.{◌≡◌, ◌≤◌, ◌<◌, ◌+◌, ◌^◌, length, slice_index, IfOk};
ghost use Rattle.std.specs.List.{All};
ghost use Rattle.vw_plan.specs.Needs.{needed_pairs};
ghost use Rattle.vw_bound.specs.Given.{design_in};
ghost use Rattle.vw_bound.specs.Pins.{pins_into};
ghost use Rattle.vw_bound.specs.Steps.Rooms.{IsLeastFit, IsLeastPeriodAt, IsLeastRoom, times_at};
ghost use Rattle.vw_bound.specs.Tables.{AreLow, IsSoonTable};
ghost use Rattle.vw_plan.specs.declared.board.Board.{Board};

use crate::placed::Placed;
use crate::times::there;
use std::alloc::{AllocError, Global};
use vw_plan::{Board, Need};

/// The pins of the links that lead to a node.
fn pins_into(board: &Board, node: u32) -> u64
    ensures { result ≡ pins_into board.now.links node }
{
    let mut pins = 0;
    for link in board.links() {
        if link.to() == node {
            pins += u64::from(link.width());
        }
    }
    pins
}

/// The least period in which pins have room for times that rise.
fn least_room(pins: u64, times: &[u64]) -> u64
    requires some { 1 ≤ pins }
    requires low { All (λ time. time < 2 ^ 63) times.now }
    ensures { IsLeastRoom pins times.now result }
{
    let mut least = 0;
    for (place, time) in times.iter().enumerate() {
        let others = (times.len() - place - 1) as u64;
        least = least.max(*time + others / pins);
    }
    least
}

/// When each of the pairs of a node can be there.
fn times_at(
    alloc: Global,
    placed: &Placed,
    table: &[u64],
    needs: &[Need],
    node: u32,
) -> Result<Vec<u64>, AllocError>
    requires node { node ≤ placed.now.board.now.chips }
    requires low { AreLow table.now }
    ensures times { IfOk result (λ times. times.items
        ≡ times_at (design_in placed.now) (slice_index table.now) node needs.now) }
    ensures low { IfOk result (λ times. All (λ time. time < 2 ^ 63) times.items) }
{
    let mut times = Vec::new(alloc);
    for need in needs {
        if need.to() == node {
            times.push(there(placed, table, need.net(), need.to()))?;
        }
    }
    Ok(times)
}

/// The least period in which the pins of a node have room for its pairs.
fn node_bound(
    alloc: Global,
    placed: &Placed,
    table: &[u64],
    needs: &[Need],
    node: u32,
) -> Result<u64, AllocError>
    requires node { node ≤ placed.now.board.now.chips }
    requires table { IsSoonTable (design_in placed.now) table.now }
    requires needs { needs.now
        ≡ needed_pairs placed.now.ordered.now.flat placed.now.chip_of.now }
    ensures { IfOk result (IsLeastPeriodAt (design_in placed.now) node) }
{
    let mut times = times_at(alloc, placed, table, needs, node)?;
    times.sort()?;
    Ok(least_room(pins_into(placed.board, node), &times))
}

/// The least period in which the pins of each node have room for its pairs. It goes over the pairs once for each node.
pub fn pins_bound(
    alloc: Global,
    placed: &Placed,
    table: &[u64],
    needs: &[Need],
) -> Result<u64, AllocError>
    requires table { IsSoonTable (design_in placed.now) table.now }
    requires needs { needs.now
        ≡ needed_pairs placed.now.ordered.now.flat placed.now.chip_of.now }
    ensures { IfOk result (IsLeastFit (design_in placed.now)) }
{
    let mut least = 0;
    for node in 0..placed.board.chips() + 1 {
        least = least.max(node_bound(alloc, placed, table, needs, node)?);
    }
    Ok(least)
}

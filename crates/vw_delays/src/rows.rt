//! Delays that are counted up to a limit, and the limit raised by one in each round.
ghost use Rattle.std.specs.Prelude.{◌≡◌, ◌≤◌, ◌<◌, ◌==◌, ◌+◌, if◌then◌else◌, length, slice_index, IfOk};
ghost use Rattle.std.specs.List.{All};
ghost use Rattle.vw_delays.specs.Delays.{nearest};
ghost use Rattle.vw_delays.specs.Steps.Rows.{AreLeastDelays, AreShortLinks, DelaysSoFar};

use std::alloc::{AllocError, Global};
use vw_plan::{Board, Link};

/// The least that a link from a node gives, by its delay and the delay of the node that it reaches; at most a limit.
fn nearest(links: &[Link], row: &[u32], from: u32, limit: u32) -> u32
    requires links { AreShortLinks (length row.now) links.now }
    requires low { All (λ delay. delay ≤ 1024) row.now }
    ensures { result ≡ nearest limit links.now (slice_index row.now) from }
{
    let mut least = limit;
    for link in links {
        if link.from() == from {
            least = least.min(link.delay() + row[link.to() as usize]);
        }
    }
    least
}

/// The delay from a node to another, counted up to a limit, given the delays that are counted up to one less.
fn delay_from(links: &[Link], row: &[u32], from: u32, to: u32, limit: u32) -> u32
    requires links { AreShortLinks (length row.now) links.now }
    requires low { All (λ delay. delay ≤ 1024) row.now }
    ensures { result ≡ (if from == to then 0 else nearest limit links.now (slice_index row.now) from) }
{
    if from == to {
        return 0;
    }
    nearest(links, row, from, limit)
}

/// The delays to a node, counted up to one more than these.
fn next_row(
    alloc: Global,
    links: &[Link],
    row: &[u32],
    to: u32,
    limit: u32,
) -> Result<Vec<u32>, AllocError>
    requires links { AreShortLinks (length row.now) links.now }
    requires row { DelaysSoFar links.now limit to (length row.now) row.now }
    requires low { limit ≤ 1000 }
    requires few { length row.now ≤ 33 }
    ensures { IfOk result (λ next. DelaysSoFar links.now (limit + 1) to (length row.now) next.items) }
{
    let mut next = Vec::with_capacity(alloc, row.len())?;
    for from in 0..row.len() as u32 {
        next.push(delay_from(links, row, from, to, limit + 1))?;
    }
    Ok(next)
}

/// The least delay of each node to a node.
pub fn delays_to(alloc: Global, board: &Board, to: u32) -> Result<Vec<u32>, AllocError>
    ensures { IfOk result (λ row. AreLeastDelays board.now to row.items) }
{
    let nodes = board.chips() as usize + 1;
    let mut row = vec![in alloc; 0; nodes]?;
    for limit in 0..16 * board.chips() + 1 {
        row = next_row(alloc, board.links(), &row, to, limit)?;
    }
    Ok(row)
}

//! Walks that are wished for.
ghost use Rattle.std.specs.Prelude.{◌≡◌, ◌≤◌};
ghost use Rattle.std.specs.Bool.{OnTrue};
ghost use Rattle.vw_plan.specs.Walks.{IsWalk};
ghost use Rattle.vw_route.specs.Routes.{IsLeastWalk};

use vw_board::{Distances, has_link};
use vw_plan::{Board, Link};

/// Whether links lead from a node over others, one after the other, to a node.
fn leads_to(links: &[Link], from: u32, further: &[u32], to: u32) -> bool
    ensures { OnTrue result (IsWalk links.now from further.now to) }
{
    match further.split_first() {
        None => from == to,
        Some((next, rest)) => {
            if !has_link(links, from, *next) {
                return false;
            }
            leads_to(links, *next, rest, to)
        }
    }
}

/// Whether nodes are those of a walk from a node to another, both included, with the least number of links. It takes no
/// memory.
pub fn is_least_walk(
    board: &Board,
    distances: &Distances,
    nodes: &[u32],
    from: u32,
    to: u32,
) -> bool
    requires distances { distances.now ≡ board.now }
    requires from { from ≤ board.now.chips }
    requires to { to ≤ board.now.chips }
    ensures { OnTrue result (IsLeastWalk board.now from to nodes.now) }
{
    match nodes.split_first() {
        None => false,
        Some((first, further)) => {
            if *first != from {
                return false;
            }
            if further.len() != distances.distance(from, to) as usize {
                return false;
            }
            leads_to(board.links(), from, further, to)
        }
    }
}

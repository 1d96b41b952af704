//! Links that can be the last of a shortest wire.
ghost use Rattle.std.specs.Prelude.{◌≡◌, ◌≤◌, ◌<◌, ℕ, Some, slice_get, IsTrue};
ghost use Rattle.std.specs.Bool.{OnTrue};
ghost use Rattle.vw_plan.specs.declared.link.Link.{Link};
ghost use Rattle.vw_bound.specs.Pins.{pins_of};
ghost use Rattle.vw_short_bound.specs.Shortest.{can_be_last};

use vw_board::Distances;
use vw_plan::{Board, Link};

/// Whether a link can be the last of a shortest walk from a node to another.
fn can_be_last(distances: &Distances, from: u32, to: u32, link: &Link) -> bool
    requires from { from ≤ distances.now.chips }
    requires to { to ≤ distances.now.chips }
    requires end { link.now.from ≤ distances.now.chips }
    ensures { result ≡ can_be_last distances.now from to link.now }
{
    link.to() == to
        && u64::from(distances.distance(from, link.from())) + 1
            == u64::from(distances.distance(from, to))
}

/// Whether each link that can be last from a node can be last from another one, too.
pub fn covers(board: &Board, distances: &Distances, source: u32, home: u32, node: u32) -> bool
    requires distances { distances.now ≡ board.now }
    requires source { source ≤ board.now.chips }
    requires home { home ≤ board.now.chips }
    requires node { node ≤ board.now.chips }
    ensures { OnTrue result ((number : ℕ) (link : Link) → slice_get board.now.links number ≡ Some link
        → IsTrue (can_be_last board.now home node link) → IsTrue (can_be_last board.now source node link)) }
{
    for link in board.links() {
        if can_be_last(distances, home, node, link) && !can_be_last(distances, source, node, link) {
            return false;
        }
    }
    true
}

/// The pins of the links that can be last from a node to another.
pub fn last_pins(board: &Board, distances: &Distances, source: u32, node: u32) -> u64
    requires distances { distances.now ≡ board.now }
    requires source { source ≤ board.now.chips }
    requires node { node ≤ board.now.chips }
    ensures { result ≡ pins_of board.now.links (can_be_last board.now source node) }
{
    let mut pins = 0;
    for link in board.links() {
        if can_be_last(distances, source, node, link) {
            pins += u64::from(link.width());
        }
    }
    pins
}

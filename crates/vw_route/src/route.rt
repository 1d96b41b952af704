ghost use Rattle.std.specs.Prelude.{◌≡◌, ◌≢◌, ◌≤◌, IfOk};
ghost use Rattle.vw_route.specs.Routes.{IsRouteBySteps};

use std::alloc::{AllocError, Global};
use vw_board::Distances;
use vw_net::Sequence;

/// The nodes of a walk with the least number of links, both ends included. Of the nodes to which a link leads and which
/// are one link nearer, the walk goes to the least, so the two ends determine it. Memory is asked for once.
pub fn walk(
    alloc: Global,
    distances: &Distances,
    from: u32,
    to: u32,
) -> Result<Sequence<u32>, AllocError>
    requires from { from ≤ distances.now.chips }
    requires to { to ≤ distances.now.chips }
    requires apart { from ≢ to }
    ensures { IfOk result (IsRouteBySteps distances.now from to) }
{
    let mut nodes = Vec::with_capacity(alloc, distances.distance(from, to) as usize + 1)?;
    nodes.push(from)?;
    let mut node = from;
    while node != to {
        node = distances.first_step(node, to);
        nodes.push(node)?;
    }
    Ok(Sequence::of(nodes))
}

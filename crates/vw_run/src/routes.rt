//! Shortest routes for the needed pairs of a placement.
ghost use Rattle.std.specs.Prelude.{◌≡◌, ◌≢◌, ◌≤◌, ◌<◌, ◌+◌, length, IfOk};
ghost use Rattle.std.specs.List.{All};
ghost use Rattle.vw_plan.specs.Chips.{IsChip};
ghost use Rattle.vw_plan.specs.Nets.{node_of};
ghost use Rattle.vw_plan.specs.Routes.{AreRoutes};
ghost use Rattle.vw_route.specs.Routes.{IsLeastWalk};
ghost use Rattle.vw_run.specs.Shortest.{IsShortRoute};

use std::alloc::{AllocError, Global};
use vw_board::Distances;
use vw_net::{Ordered, Sequence};
use vw_plan::{Board, Need, Route, node_of};
use vw_route::{is_least_walk, spread_walks, walk};
use vw_wires::needed;

/// A placement of a netlist on a board: each cell has a chip of the board.
#[derive(Drop)]
struct Placed<'a> {
    /// The netlist, with the order of its gates.
    ordered: &'a Ordered,
    /// The board.
    board: &'a Board,
    /// How far the nodes of the board are from each other.
    distances: &'a Distances,
    /// The chip of each cell.
    chip_of: &'a [u32],
    ghost each: { length chip_of.now ≡ length ordered.now.flat.cells },
    ghost chips: { All (IsChip board.now) chip_of.now },
    ghost same_board: { distances.now ≡ board.now },
}

/// The nodes of a walk with the least number of links: those that are wished for, where they are one, and else the walk by
/// first steps.
fn walk_by(
    alloc: Global,
    board: &Board,
    distances: &Distances,
    from: u32,
    to: u32,
    wish: &[u32],
) -> Result<Sequence<u32>, AllocError>
    requires distances { distances.now ≡ board.now }
    requires from { from ≤ board.now.chips }
    requires to { to ≤ board.now.chips }
    requires apart { from ≢ to }
    ensures { IfOk result (IsLeastWalk board.now from to) }
{
    if is_least_walk(board, distances, wish, from, to) {
        return Ok(Sequence::of(wish.to_vec(alloc)?));
    }
    let nodes = walk(alloc, distances, from, to)?;
    Ok(nodes)
}

/// A shortest route for a needed pair, by a wish.
fn route_of(alloc: Global, placed: &Placed, need: &Need, wish: &[u32]) -> Result<Route, AllocError>
    requires net { need.now.net
        < placed.now.ordered.now.flat.inputs + length placed.now.ordered.now.flat.cells }
    requires to { need.now.to ≤ placed.now.board.now.chips }
    requires apart { node_of placed.now.ordered.now.flat placed.now.chip_of.now need.now.net
        ≢ need.now.to }
    ensures net { IfOk result (λ route. route.net ≡ need.now.net) }
    ensures to { IfOk result (λ route. route.to ≡ need.now.to) }
    ensures short { IfOk result (IsShortRoute placed.now.ordered.now.flat placed.now.board.now
        placed.now.chip_of.now) }
{
    let from = node_of(placed.ordered.flat(), placed.chip_of, need.net());
    let nodes = walk_by(alloc, placed.board, placed.distances, from, need.to(), wish)?;
    Ok(Route::make(need.net(), need.to(), nodes))
}

/// Which walks the wires of a plan take, of those with the least number of links.
#[derive(Clone, Copy)]
pub enum Routing {
    /// Those by first steps, which the ends alone determine.
    FirstSteps,
    /// Those of the least delay, and of these such as spread over the links.
    Spread,
}

/// The two ends of each needed pair.
fn ends_of(alloc: Global, placed: &Placed, needs: &[Need]) -> Result<Vec<(u32, u32)>, AllocError> {
    let inputs = placed.ordered.flat().inputs();
    let mut ends = Vec::with_capacity(alloc, needs.len())?;
    for need in needs {
        let home = match need.net().checked_sub(inputs) {
            Some(cell) => placed.chip_of.get(cell as usize).copied().unwrap_or(0),
            None => 0,
        };
        ends.push((home, need.to()))?;
    }
    Ok(ends)
}

/// The walks that are wished for; none where the routing wishes for none.
fn wishes_of(
    alloc: Global,
    placed: &Placed,
    needs: &[Need],
    routing: Routing,
) -> Result<Vec<Sequence<u32>>, AllocError> {
    match routing {
        Routing::FirstSteps => Ok(Vec::new(alloc)),
        Routing::Spread => {
            let ends = ends_of(alloc, placed, needs)?;
            spread_walks(alloc, placed.board, placed.distances, &ends)
        }
    }
}

/// A shortest route for each needed pair of a placement, in their order.
pub fn routes_of(
    alloc: Global,
    ordered: &Ordered,
    board: &Board,
    distances: &Distances,
    chip_of: &[u32],
    routing: Routing,
) -> Result<Sequence<Route>, AllocError>
    requires each { length chip_of.now ≡ length ordered.now.flat.cells }
    requires chips { All (IsChip board.now) chip_of.now }
    requires distances { distances.now ≡ board.now }
    ensures routes { IfOk result (AreRoutes ordered.now.flat board.now chip_of.now) }
    ensures short { IfOk result (All (IsShortRoute ordered.now.flat board.now chip_of.now)) }
{
    let placed = Placed {
        ordered,
        board,
        distances,
        chip_of,
    };
    let needs = needed(alloc, ordered, chip_of)?;
    let wishes = wishes_of(alloc, &placed, needs.as_slice(), routing)?;
    let mut routes = Vec::with_capacity(alloc, needs.len())?;
    for need in needs.as_slice() {
        let wish: &[u32] = match wishes.get(routes.len()) {
            Some(walk) => walk.as_slice(),
            None => &[],
        };
        routes.push(route_of(alloc, &placed, need, wish)?)?;
    }
    Ok(Sequence::of(routes))
}

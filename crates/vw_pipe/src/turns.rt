//! What comes first: the lead of which net, the hops of which route.
ghost use Rattle.std.specs.Prelude.{◌≡◌, ◌<◌, ◌+◌, ℕ, Some, length, slice_get, slice_index, IfOk};
ghost use Rattle.std.specs.Bool.{OnTrue};
ghost use Rattle.std.specs.List.{All};
ghost use Rattle.vw_net.specs.Order.{gate_inputs};
ghost use Rattle.vw_plan.specs.declared.need.Route.{Route};
ghost use Rattle.vw_pipe.specs.Steps.Given.{net_count};
ghost use Rattle.vw_pipe.specs.Steps.Turns.{AreBehind, AreTurns, ComesBefore, IsBehindReads, RoutesFollow};

use crate::given::Given;
use crate::remaining::{Remaining, remaining_of};
use std::alloc::{AllocError, Global};
use vw_net::Cell;

/// What is sent first.
#[derive(Clone, Copy)]
pub enum Priority {
    /// All routes of the net that the longest path follows.
    Nets,
    /// The route that the longest path follows.
    Routes,
}

/// When each net and each route has its turn.
#[derive(Drop)]
pub struct Turns {
    /// The turn of each net, in which the lead of a gate's net is worked out.
    pub nets: Vec<u64>,
    /// The turn of each route, in which its hops are sent. Of one turn, leads come before hops.
    pub routes: Vec<u64>,
}

/// A net or a route among all. What a longer path follows comes first; of equal ones, inputs and latches with their routes,
/// and then gates with theirs in their order.
#[derive(Clone, Copy, PartialEq, Eq, PartialOrd, Ord)]
struct Ranked {
    /// The less, the longer the path is that follows.
    less: u64,
    /// One more than the place in the order of the gate that drives the net; 0 where no gate does.
    place: u64,
    /// Whether it is a route.
    sends: bool,
    /// The number of the net or the route.
    number: usize,
}

/// The turn of a net, by the turns of all.
pub fn turn_in(turns: &[u64], net: u32) -> u64
    ensures { result ≡ slice_index turns.now net }
{
    match turns.get(net as usize) {
        Some(turn) => *turn,
        None => 0,
    }
}

/// Turns of nets in which each gate comes behind the gates before it in the order, and all gates behind the other nets.
fn nets_by_order(alloc: Global, given: &Given) -> Result<Vec<u64>, AllocError>
    ensures { IfOk result (λ nets. AreBehind given.now.ordered.now nets.items) }
{
    let ordered = given.ordered;
    let inputs = ordered.flat().inputs() as usize;
    let mut turns = vec![in alloc; 0; inputs + ordered.flat().cells().len()]?;
    for (place, number) in ordered.order().iter().enumerate() {
        turns[inputs + *number as usize] = place as u64 + 1;
    }
    Ok(turns)
}

/// The turns of nets, and of each route that of its net.
fn with_routes(alloc: Global, given: &Given, nets: Vec<u64>) -> Result<Turns, AllocError>
    ensures nets { IfOk result (λ turns. turns.nets ≡ nets) }
    ensures routes { IfOk result (λ turns. (number : ℕ) (route : Route)
        → slice_get given.now.routes.now number ≡ Some route
        → slice_get turns.routes.items number ≡ Some (slice_index nets.items route.net)) }
    ensures long { IfOk result (λ turns. length turns.routes.items ≡ length given.now.routes.now) }
{
    let mut routes = Vec::with_capacity(alloc, given.routes.len())?;
    for route in given.routes {
        routes.push(turn_in(&nets, route.net()))?;
    }
    Ok(Turns { nets, routes })
}

/// Adds each net to those that are ranked.
fn rank_nets(
    own: &[u64],
    remaining: &Remaining,
    ranked: &mut Vec<Ranked>,
) -> Result<(), AllocError> {
    for (net, place) in own.iter().enumerate() {
        let rest = remaining.nets.get(net).copied().unwrap_or(0);
        ranked.push(Ranked {
            less: u64::MAX - rest,
            place: *place,
            sends: false,
            number: net,
        })?;
    }
    Ok(())
}

/// Adds each route.
fn rank_routes(
    given: &Given,
    own: &[u64],
    remaining: &Remaining,
    ranked: &mut Vec<Ranked>,
) -> Result<(), AllocError> {
    for (number, route) in given.routes.iter().enumerate() {
        let rest = remaining.routes.get(number).copied().unwrap_or(0);
        ranked.push(Ranked {
            less: u64::MAX - rest,
            place: turn_in(own, route.net()),
            sends: true,
            number,
        })?;
    }
    Ok(())
}

/// The turn of each net and route, by its place among all.
fn turns_of_ranked(
    alloc: Global,
    ranked: &[Ranked],
    nets: usize,
    routes: usize,
) -> Result<Turns, AllocError> {
    let mut turns = Turns {
        nets: vec![in alloc; 0; nets]?,
        routes: vec![in alloc; 0; routes]?,
    };
    for (turn, one) in ranked.iter().enumerate() {
        let list = if one.sends {
            &mut turns.routes
        } else {
            &mut turns.nets
        };
        if let Some(entry) = list.get_mut(one.number) {
            *entry = turn as u64;
        }
    }
    Ok(turns)
}

/// Turns of nets by what follows each of them, the longest path first. They needn't be turns that can be kept.
fn nets_by_remaining(
    alloc: Global,
    own: &[u64],
    remaining: &Remaining,
) -> Result<Vec<u64>, AllocError> {
    let mut ranked = Vec::with_capacity(alloc, own.len())?;
    rank_nets(own, remaining, &mut ranked)?;
    ranked.sort()?;
    let turns = turns_of_ranked(alloc, &ranked, own.len(), 0)?;
    Ok(turns.nets)
}

/// Turns of nets and routes by what follows each of them, the longest path first. They needn't be turns that can be kept.
fn turns_by_remaining(
    alloc: Global,
    given: &Given,
    own: &[u64],
    remaining: &Remaining,
) -> Result<Turns, AllocError> {
    let mut ranked = Vec::with_capacity(alloc, own.len() + given.routes.len())?;
    rank_nets(own, remaining, &mut ranked)?;
    rank_routes(given, own, remaining, &mut ranked)?;
    ranked.sort()?;
    turns_of_ranked(alloc, &ranked, own.len(), given.routes.len())
}

/// Whether a net, and the route that brings it to a node, come before a turn.
fn comes_before(given: &Given, turns: &Turns, node: u32, net: u32, turn: u64) -> bool
    ensures { OnTrue result
        (ComesBefore given.now.routes.now turns.now.nets.items turns.now.routes.items node turn net) }
{
    if turn_in(&turns.nets, net) >= turn {
        return false;
    }
    match given.places.first(net, node) {
        Some(number) => match turns.routes.get(number) {
            Some(sent) => *sent < turn,
            None => false,
        },
        None => true,
    }
}

/// Whether each of some nets, and the route that brings it to a node, come before a turn.
fn come_before(given: &Given, turns: &Turns, node: u32, nets: &[u32], turn: u64) -> bool
    ensures { OnTrue result (All
        (ComesBefore given.now.routes.now turns.now.nets.items turns.now.routes.items node turn) nets.now) }
{
    for net in nets {
        if !comes_before(given, turns, node, *net, turn) {
            return false;
        }
    }
    true
}

/// Whether the gate of a cell number comes behind what it reads.
fn is_behind(given: &Given, turns: &Turns, number: u32) -> bool
    requires { number < length given.now.ordered.now.flat.cells }
    ensures { OnTrue result (All
        (ComesBefore given.now.routes.now turns.now.nets.items turns.now.routes.items
        (slice_index given.now.chip_of.now number)
        (slice_index turns.now.nets.items (given.now.ordered.now.flat.inputs + number)))
        (gate_inputs (slice_get given.now.ordered.now.flat.cells number))) }
{
    let flat = given.ordered.flat();
    match &flat.cells()[number as usize] {
        Cell::Gate { ins, .. } => {
            let node = given.chip_of[number as usize];
            let turn = turn_in(&turns.nets, flat.inputs() + number);
            come_before(given, turns, node, ins.as_slice(), turn)
        }
        Cell::Latch { .. } => true,
    }
}

/// Whether each gate comes behind what it reads.
fn gates_follow(given: &Given, turns: &Turns) -> bool
    ensures { OnTrue result ((place : ℕ) → place < length given.now.ordered.now.order
        → IsBehindReads given.now.ordered.now given.now.chip_of.now given.now.routes.now
        turns.now.nets.items turns.now.routes.items place) }
{
    for number in given.ordered.order() {
        if !is_behind(given, turns, *number) {
            return false;
        }
    }
    true
}

/// Whether no route comes before its net.
fn routes_follow(given: &Given, turns: &Turns) -> bool
    ensures { OnTrue result
        (RoutesFollow given.now.routes.now turns.now.nets.items turns.now.routes.items) }
{
    if turns.routes.len() != given.routes.len() {
        return false;
    }
    for (number, route) in given.routes.iter().enumerate() {
        if turns.routes[number] < turn_in(&turns.nets, route.net()) {
            return false;
        }
    }
    true
}

/// These turns, where they can be kept, and else those by the order of the gates, each route with its net.
fn kept_turns(
    alloc: Global,
    given: &Given,
    own: Vec<u64>,
    wished: Turns,
) -> Result<Turns, AllocError>
    requires { AreBehind given.now.ordered.now own.items }
    ensures { IfOk result (AreTurns given.now.ordered.now given.now.chip_of.now
        given.now.routes.now) }
{
    if gates_follow(given, &wished) {
        if routes_follow(given, &wished) {
            return Ok(wished);
        }
    }
    let turns = with_routes(alloc, given, own)?;
    Ok(turns)
}

/// What comes first, by what follows each net and each route.
pub fn turns_of(alloc: Global, given: &Given, priority: Priority) -> Result<Turns, AllocError>
    ensures { IfOk result (AreTurns given.now.ordered.now given.now.chip_of.now
        given.now.routes.now) }
{
    let own = nets_by_order(alloc, given)?;
    let remaining = remaining_of(alloc, given)?;
    let wished = match priority {
        Priority::Nets => {
            let nets = nets_by_remaining(alloc, own.as_slice(), &remaining)?;
            with_routes(alloc, given, nets)?
        }
        Priority::Routes => turns_by_remaining(alloc, given, own.as_slice(), &remaining)?,
    };
    let turns = kept_turns(alloc, given, own, wished)?;
    Ok(turns)
}

//! How long a path still follows each net, in microcycles: over the gates that settle and over the links of its wires, up to a
//! latch or an output. It only says what is sent first; no contract rests on it. In the field: the priority of list scheduling
//! by the critical path.
use crate::given::Given;
use std::alloc::{AllocError, Global};
use vw_net::Cell;
use vw_plan::Route;
use vw_ready::LinkTable;

/// How long a bit is under way along a route, if it never waits.
fn time_along(links: &LinkTable, route: &Route) -> u64 {
    let mut time: u64 = 0;
    let mut from = None;
    for to in route.nodes() {
        if let Some(before) = from {
            if let Some(link) = links.between(before, *to) {
                time = time.saturating_add(u64::from(link.delay()));
            }
        }
        from = Some(*to);
    }
    time
}

/// How long it takes along each route.
fn times_of(alloc: Global, given: &Given) -> Result<Vec<u64>, AllocError> {
    let mut times = Vec::with_capacity(alloc, given.routes.len())?;
    for route in given.routes {
        times.push(time_along(given.links, route))?;
    }
    Ok(times)
}

/// The cell that drives a net; none where it is an input.
fn driver<'a>(given: &Given<'a>, net: u32) -> Option<&'a Cell> {
    let flat = given.ordered.flat();
    if net < flat.inputs() {
        return None;
    }
    flat.cells().get((net - flat.inputs()) as usize)
}

/// The node of a net.
fn home(given: &Given, net: u32) -> u32 {
    let inputs = given.ordered.flat().inputs();
    if net < inputs {
        return 0;
    }
    given
        .chip_of
        .get((net - inputs) as usize)
        .copied()
        .unwrap_or(0)
}

/// How long a net takes to settle at its own node.
fn settling(given: &Given, net: u32) -> u64 {
    match driver(given, net) {
        Some(Cell::Gate { .. }) => u64::from(given.board.settle()),
        _ => 0,
    }
}

/// How long a path still follows each net at its own node, and each route, from the lead of its net on.
#[derive(Drop)]
pub struct Remaining {
    pub nets: Vec<u64>,
    pub routes: Vec<u64>,
}

/// Makes a number of a list no less than another.
fn raise(list: &mut Vec<u64>, place: usize, least: u64) {
    if let Some(entry) = list.get_mut(place) {
        *entry = (*entry).max(least);
    }
}

/// A path follows each route, as long as it takes along it, and so it follows its net.
fn follow_routes(given: &Given, times: &[u64], remaining: &mut Remaining) {
    for (number, route) in given.routes.iter().enumerate() {
        let time = times.get(number).copied().unwrap_or(0);
        let rest = settling(given, route.net()).saturating_add(time);
        raise(&mut remaining.routes, number, rest);
        raise(&mut remaining.nets, route.net() as usize, rest);
    }
}

/// Each net that a latch reads at home has to settle.
fn follow_latches(given: &Given, remaining: &mut Remaining) {
    for (number, cell) in given.ordered.flat().cells().iter().enumerate() {
        if let Cell::Latch { d, .. } = cell {
            let node = given.chip_of.get(number).copied().unwrap_or(0);
            if home(given, *d) == node {
                raise(&mut remaining.nets, *d as usize, settling(given, *d));
            }
        }
    }
}

/// What follows a gate on a node follows a net that it reads, too, and the route that brings the net there.
fn follow_read(
    given: &Given,
    times: &[u64],
    remaining: &mut Remaining,
    node: u32,
    net: u32,
    rest: u64,
) {
    let mut before = rest;
    if home(given, net) != node {
        if let Some(number) = given.places.first(net, node) {
            let time = times.get(number).copied().unwrap_or(0);
            before = rest
                .saturating_add(settling(given, net))
                .saturating_add(time);
            raise(&mut remaining.routes, number, before);
        }
    }
    raise(&mut remaining.nets, net as usize, before);
}

/// What follows a gate follows each net that it reads.
fn follow_gate(given: &Given, times: &[u64], remaining: &mut Remaining, number: u32) {
    let net = given.ordered.flat().inputs().saturating_add(number);
    let rest = remaining.nets.get(net as usize).copied().unwrap_or(0);
    let node = home(given, net);
    if let Some(Cell::Gate { ins, .. }) = driver(given, net) {
        for read in ins.as_slice() {
            follow_read(given, times, remaining, node, *read, rest);
        }
    }
}

/// How long a path still follows each net and each route. Gates are gone over from the last to the first, so that what
/// follows a gate is known before it is said of what the gate reads.
pub fn remaining_of(alloc: Global, given: &Given) -> Result<Remaining, AllocError> {
    let flat = given.ordered.flat();
    let times = times_of(alloc, given)?;
    let nets = vec![in alloc; 0; flat.inputs() as usize + flat.cells().len()]?;
    let routes = vec![in alloc; 0; given.routes.len()]?;
    let mut remaining = Remaining { nets, routes };
    follow_routes(given, times.as_slice(), &mut remaining);
    follow_latches(given, &mut remaining);
    for number in given.ordered.order().iter().rev() {
        follow_gate(given, times.as_slice(), &mut remaining, *number);
    }
    Ok(remaining)
}

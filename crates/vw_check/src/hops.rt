//! Faults of the hops of wires, each by itself. Microcycles are at most 2 ^ 62 and delays at most 16, so an arrival, their
//! sum, never passes the end of its type.
ghost use Rattle.std.specs.Prelude.{◌≡◌, ◌≤◌, ◌<◌, ◌+◌, ◌^◌, length};
ghost use Rattle.std.specs.List.{All};
ghost use Rattle.vw_check.specs.HopFaults.{begins_at, broken_wire, broken_route, fits_route, is_later};
ghost use Rattle.vw_ready.specs.LeadTables.{planned_in};
ghost use Rattle.vw_check.specs.Steps.Rules.{first_breaking, first_in_wire, keeps, rule_fault};

use crate::fault::PlanFault;
use crate::links::width_between;
use vw_plan::{Hop, Wire, node_of};
use vw_ready::{LinkTable, Wired};

/// What is asked of each hop.
#[derive(Clone, Copy)]
pub enum Rule {
    /// It begins where the hop before it ended, the first one at the net's node; a link leads where it goes; and the last one
    /// ends at the wire's node.
    Route,
    /// Its link has its pin.
    Pin,
    /// It is later than the arrival of the hop before it.
    Order,
    /// It arrives before the period ends.
    Period,
}

/// The fault of a hop that breaks a rule.
fn rule_fault(rule: Rule, wire: u32, hop: u32) -> PlanFault
    ensures { result ≡ rule_fault rule wire hop }
{
    match rule {
        Rule::Route => PlanFault::BrokenRoute(wire, hop),
        Rule::Pin => PlanFault::BadPin(wire, hop),
        Rule::Order => PlanFault::OutOfOrder(wire, hop),
        Rule::Period => PlanFault::PastPeriod(wire, hop),
    }
}

/// The node where a hop has to begin.
fn begins_at(from: u32, hops: &[Hop], number: usize) -> u32
    requires { number < length hops.now }
    ensures { result ≡ begins_at from hops.now number }
{
    if number == 0 {
        return from;
    }
    hops[number - 1].to()
}

/// Whether a hop goes on with the route of its wire.
fn fits_route(wired: &Wired, from: u32, wire: &Wire, number: usize, hop: &Hop) -> bool
    requires { number < length wire.now.hops }
    ensures { result ≡ fits_route wired.now.board.now.links from wire.now number hop.now }
{
    let hops = wire.hops();
    if hop.from() != begins_at(from, hops, number) {
        return false;
    }
    if width_between(wired.links, hop.from(), hop.to()) == 0 {
        return false;
    }
    number + 1 < hops.len() || hop.to() == wire.to()
}

/// Whether a hop is later than the arrival of the one before it.
fn is_later(links: &LinkTable, hops: &[Hop], number: usize, hop: &Hop) -> bool
    requires number { number < length hops.now }
    requires early { All (λ hop. hop.at ≤ 2 ^ 62) hops.now }
    ensures { result ≡ is_later links.now hops.now number hop.now }
{
    if number == 0 {
        return true;
    }
    links.arrival(&hops[number - 1]) < hop.at()
}

/// Whether a hop keeps a rule; its wire begins at a node.
fn keeps(rule: Rule, wired: &Wired, from: u32, wire: &Wire, number: usize, hop: &Hop) -> bool
    requires number { number < length wire.now.hops }
    requires early { All (λ hop. hop.at ≤ 2 ^ 62) wire.now.hops }
    requires own { hop.now.at ≤ 2 ^ 62 }
    ensures { result
        ≡ keeps rule wired.now.board.now wired.now.plan.now.period from wire.now number hop.now }
{
    match rule {
        Rule::Route => fits_route(wired, from, wire, number, hop),
        Rule::Pin => hop.pin() < width_between(wired.links, hop.from(), hop.to()),
        Rule::Order => is_later(wired.links, wire.hops(), number, hop),
        Rule::Period => wired.links.arrival(hop) < wired.plan.period(),
    }
}

/// The first hop of a wire that breaks a rule.
fn first_in_wire(
    rule: Rule,
    wired: &Wired,
    from: u32,
    number: u32,
    wire: &Wire,
) -> Option<PlanFault>
    requires few { length wire.now.hops < 2 ^ 32 }
    requires early { All (λ hop. hop.at ≤ 2 ^ 62) wire.now.hops }
    ensures { result
        ≡ first_in_wire rule wired.now.board.now wired.now.plan.now.period from number wire.now }
{
    for (place, hop) in wire.hops().iter().enumerate() {
        if !keeps(rule, wired, from, wire, place, hop) {
            return Some(rule_fault(rule, number, place as u32));
        }
    }
    None
}

/// The first hop of all that breaks a rule.
pub fn first_breaking(rule: Rule, wired: &Wired) -> Option<PlanFault>
    ensures { result ≡ first_breaking rule (planned_in wired.now) }
{
    for (number, wire) in wired.plan.wires().iter().enumerate() {
        let from = node_of(wired.ordered.flat(), wired.plan.chip_of(), wire.net());
        let found = first_in_wire(rule, wired, from, number as u32, wire);
        if found.is_some() {
            return found;
        }
    }
    None
}

/// The first hop of a wire that breaks its route; hop 0 where there is none.
fn broken_wire(wired: &Wired, number: u32, wire: &Wire) -> Option<PlanFault>
    requires net { wire.now.net < wired.now.ordered.now.flat.inputs
        + length wired.now.ordered.now.flat.cells }
    requires few { length wire.now.hops < 2 ^ 32 }
    requires early { All (λ hop. hop.at ≤ 2 ^ 62) wire.now.hops }
    ensures { result ≡ broken_wire (planned_in wired.now) number wire.now }
{
    if wire.hops().is_empty() {
        return Some(PlanFault::BrokenRoute(number, 0));
    }
    let from = node_of(wired.ordered.flat(), wired.plan.chip_of(), wire.net());
    first_in_wire(Rule::Route, wired, from, number, wire)
}

/// The first hop that breaks the route of its wire.
pub fn broken_route(wired: &Wired) -> Option<PlanFault>
    ensures { result ≡ broken_route (planned_in wired.now) }
{
    for (number, wire) in wired.plan.wires().iter().enumerate() {
        let found = broken_wire(wired, number as u32, wire);
        if found.is_some() {
            return found;
        }
    }
    None
}

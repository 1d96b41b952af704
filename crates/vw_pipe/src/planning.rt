//! Schedules.
ghost use Rattle.std.specs.Prelude.{◌≡◌, ◌≤◌, ◌<◌, ◌^◌, ℕ, length, max, IfOk, IfErr};
ghost use Rattle.std.specs.List.{All};
ghost use Rattle.vw_plan.specs.declared.plan.Plan.{Plan};
ghost use Rattle.vw_plan.specs.Chips.{IsChip, cells_on};
ghost use Rattle.vw_plan.specs.HopCounts.{hop_count};
ghost use Rattle.vw_plan.specs.Routes.{AreRoutes};
ghost use Rattle.vw_ready.specs.Pairs.{HasPairs};
ghost use Rattle.vw_pipe.specs.Schedules.{IsSchedule};
ghost use Rattle.vw_pipe.specs.Steps.FinishedSchedules.{latest};
ghost use Rattle.vw_pipe.specs.Steps.Given.{IsFitFor, cell_microcycle_for, net_count};
ghost use Rattle.vw_net.specs.Cells.{read_nets};
ghost use Rattle.vw_pipe.specs.Steps.Leads.{route_pairs, wires_of};

use crate::draft::Draft;
use crate::drafting::{drafted, usable_at};
use crate::given::Given;
use crate::refused::ScheduleRefused;
use crate::turns::{Priority, turns_of};
use std::alloc::{AllocError, Global};
use vw_net::{Cell, Ordered, Sequence};
use vw_plan::{Board, Hop, Plan, Route, Wire, leads_follow_drivers, needed_pairs_are_needed};
use vw_ready::{LinkTable, PairTable};

/// The place of each route.
fn route_table(alloc: Global, routes: &[Route]) -> Result<PairTable, AllocError>
    ensures { IfOk result (λ table. HasPairs (route_pairs routes.now) table.places) }
{
    let mut pairs = Vec::with_capacity(alloc, routes.len())?;
    for route in routes {
        pairs.push((route.net(), route.to()))?;
    }
    PairTable::of(alloc, &pairs)
}

/// The microcycle at which what a latch reads is usable on the latch's chip; 0 for a gate.
fn cell_microcycle(given: &Given, draft: &Draft, number: usize, cell: &Cell) -> u64
    requires number { number < length given.now.ordered.now.flat.cells }
    requires fits { All (λ net. net < net_count given.now) (read_nets cell.now) }
    requires fit { IsFitFor given.now draft.now }
    ensures { result ≡ cell_microcycle_for given.now draft.now number cell.now }
{
    match cell {
        Cell::Gate { .. } => 0,
        Cell::Latch { d, .. } => usable_at(given, draft, given.chip_of[number], *d),
    }
}

/// The least period that is long enough: for one microcycle, for the last hop, and for each latch.
fn period_of(given: &Given, draft: &Draft) -> u64
    requires { IsFitFor given.now draft.now }
    ensures { result ≡ max (max draft.now.after 1)
        (latest (cell_microcycle_for given.now draft.now) 0 given.now.ordered.now.flat.cells) }
{
    let mut period = draft.after.max(1);
    for (number, cell) in given.ordered.flat().cells().iter().enumerate() {
        let microcycle = cell_microcycle(given, draft, number, cell);
        period = period.max(microcycle);
    }
    period
}

/// The wires of routes with these hops.
fn wires_of(
    alloc: Global,
    routes: &[Route],
    hops: Vec<Sequence<Hop>>,
) -> Result<Vec<Wire>, AllocError>
    requires { length hops.items ≡ length routes.now }
    ensures { IfOk result (λ wires. wires.items ≡ wires_of routes.now hops.items) }
{
    let mut wires = Vec::with_capacity(alloc, routes.len())?;
    for sent in hops {
        let route = &routes[wires.len()];
        wires.push(Wire::make(route.net(), route.to(), sent))?;
    }
    Ok(wires)
}

/// The wires and the period of a schedule.
fn plan_parts(
    alloc: Global,
    ordered: &Ordered,
    board: &Board,
    chip_of: &[u32],
    routes: &[Route],
    priority: Priority,
) -> Result<(Vec<Wire>, u64), AllocError>
    requires each { length chip_of.now ≡ length ordered.now.flat.cells }
    requires chips { All (IsChip board.now) chip_of.now }
    requires room { (chip : ℕ) → cells_on chip_of.now chip ≤ board.now.cells }
    requires routes { AreRoutes ordered.now.flat board.now chip_of.now routes.now }
    requires few { length routes.now < 2 ^ 32 }
    ensures few_wires { IfOk result (λ parts. length parts.0.items < 2 ^ 32) }
    ensures few_hops { IfOk result
        (λ parts. hop_count parts.0.items < 2 ^ 30) }
    ensures early { IfOk result
        (λ parts. All (λ wire. All (λ hop. hop.at ≤ 2 ^ 62) wire.hops) parts.0.items) }
    ensures short { IfOk result (λ parts. parts.1 ≤ 2 ^ 62) }
    ensures schedule { IfOk result
        (λ parts. (plan : Plan) → plan.chip_of ≡ chip_of.now → plan.wires ≡ parts.0.items
        → plan.period ≡ parts.1 → IsSchedule ordered.now board.now chip_of.now routes.now plan) }
{
    leads_follow_drivers();
    needed_pairs_are_needed();
    let places = route_table(alloc, routes)?;
    let links = LinkTable::of(alloc, board)?;
    let given = Given {
        ordered,
        board,
        chip_of,
        routes,
        places: &places,
        links: &links,
    };
    let turns = turns_of(alloc, &given, priority)?;
    let draft = drafted(alloc, &given, &turns)?;
    let period = period_of(&given, &draft);
    let wires = wires_of(alloc, routes, draft.hops)?;
    Ok((wires, period))
}

/// A sound plan whose wires follow routes: a wire starts as soon as its net is usable, each hop takes the first free slot of its
/// link, and the period is the least sound one. What a longer path follows takes its slots first: nets or routes, by `priority`. It takes memory for the hops and their slots, for
/// a few numbers for each net and each route, and for a number for each two of 33 nodes; where there is none, it hands the
/// chips and the routes back.
pub fn schedule(
    alloc: Global,
    ordered: &Ordered,
    board: &Board,
    chip_of: Sequence<u32>,
    routes: Sequence<Route>,
    priority: Priority,
) -> Result<Plan, ScheduleRefused>
    requires each { length chip_of ≡ length ordered.now.flat.cells }
    requires chips { All (IsChip board.now) chip_of }
    requires room { (chip : ℕ) → cells_on chip_of chip ≤ board.now.cells }
    requires routes { AreRoutes ordered.now.flat board.now chip_of routes }
    ensures schedule { IfOk result (IsSchedule ordered.now board.now chip_of routes) }
    ensures refused { IfErr result
        (λ refused. (refused.chip_of ≡ chip_of) × (refused.routes ≡ routes)) }
{
    needed_pairs_are_needed();
    let parts = plan_parts(
        alloc,
        ordered,
        board,
        chip_of.as_slice(),
        routes.as_slice(),
        priority,
    );
    match parts {
        Ok((wires, period)) => Ok(Plan::make(chip_of, Sequence::of(wires), period)),
        Err(_) => Err(ScheduleRefused { chip_of, routes }),
    }
}

//! The first fault of a plan.
ghost use Rattle.std.specs.Prelude.{◌≡◌, ◌<◌, ◌^◌, length, IfOk, IfErr, IfNone};
ghost use Rattle.vw_plan.specs.PlannedBoard.{planned_board};
ghost use Rattle.vw_check.specs.Faults.{cell_fault, chips_fault, hop_fault, microcycle_fault, plan_fault};
ghost use Rattle.vw_check.specs.Answers.{HasPlace, IsAcceptedPlan, IsRefusedPlan};
ghost use Rattle.vw_ready.specs.LeadTables.{planned_in};

use crate::cells::{bad_chip, overfull, wrong_cells, zero_period};
use crate::clash::pin_clash;
use crate::fault::PlanFault;
use crate::hops::{Rule, broken_route, first_breaking};
use crate::laws::{faultless_plans_are_sound, faults_break_points};
use crate::microcycles::{late_latch, too_early};
use crate::refused::CheckRefused;
use crate::wires::wire_fault;
use std::alloc::{AllocError, Global};
use vw_net::{Flat, Ordered};
use vw_plan::{Board, Checked, Plan};
use vw_ready::{LeadTable, LinkTable, Wired, arrivals_of, home_leads, wire_table};

/// The first fault of the chips of the cells, and of the period.
fn cell_fault(flat: &Flat, board: &Board, plan: &Plan) -> Option<PlanFault>
    ensures { result ≡ cell_fault flat.now board.now plan.now }
{
    wrong_cells(flat, plan.chip_of())
        .or(zero_period(plan))
        .or(bad_chip(board, plan.chip_of()))
        .or(overfull(board, plan.chip_of()))
}

/// The first fault of chips.
fn fault_of_chips(flat: &Flat, board: &Board, chip_of: &[u32]) -> Option<PlanFault>
    requires { length chip_of.now < 2 ^ 32 }
    ensures { result ≡ chips_fault flat.now board.now chip_of.now }
{
    wrong_cells(flat, chip_of)
        .or(bad_chip(board, chip_of))
        .or(overfull(board, chip_of))
}

/// The first fault of chips that a plan is to have: there is another number of them than of cells; else of the first cell whose
/// entry is no chip; else of the least chip that has more cells than it has room for.
pub fn chips_fault(ordered: &Ordered, board: &Board, chip_of: &[u32]) -> Option<PlanFault>
    requires { length chip_of.now < 2 ^ 32 }
    // Where there is none, each cell has a chip, and no chip more cells than it has room for.
    ensures place { IfNone result (HasPlace ordered.now.flat board.now chip_of.now) }
    ensures fault { result ≡ chips_fault ordered.now.flat board.now chip_of.now }
{
    fault_of_chips(ordered.flat(), board, chip_of)
}

/// The first fault of the hops.
fn hop_fault(alloc: Global, wired: &Wired) -> Result<Option<PlanFault>, AllocError>
    ensures { IfOk result (λ found. found ≡ hop_fault (planned_in wired.now)) }
{
    let found = broken_route(wired)
        .or(first_breaking(Rule::Pin, wired))
        .or(first_breaking(Rule::Order, wired))
        .or(first_breaking(Rule::Period, wired));
    if found.is_some() {
        return Ok(found);
    }
    pin_clash(alloc, wired.plan)
}

/// The first fault of the microcycles from which on nets are usable.
fn microcycle_fault(alloc: Global, wired: &Wired) -> Result<Option<PlanFault>, AllocError>
    ensures { IfOk result (λ found. found ≡ microcycle_fault (planned_in wired.now)) }
{
    let arrivals = arrivals_of(alloc, wired)?;
    let leads = home_leads(alloc, wired, arrivals.as_slice())?;
    let known = LeadTable {
        ordered: wired.ordered,
        chip_of: wired.plan.chip_of(),
        settle: wired.board.settle(),
        places: wired.wires,
        arrivals: arrivals.as_slice(),
        leads: leads.as_slice(),
    };
    let early = too_early(wired, &known);
    Ok(early.or(late_latch(wired, &known)))
}

/// The first fault of a plan.
fn plan_fault(
    alloc: Global,
    ordered: &Ordered,
    board: &Board,
    plan: &Plan,
) -> Result<Option<PlanFault>, AllocError>
    ensures { IfOk result (λ found. found
        ≡ plan_fault (planned_board ordered.now board.now plan.now)) }
{
    let cells = cell_fault(ordered.flat(), board, plan);
    if cells.is_some() {
        return Ok(cells);
    }
    let table = wire_table(alloc, plan)?;
    let wires = wire_fault(alloc, ordered, plan, &table)?;
    if wires.is_some() {
        return Ok(wires);
    }
    let links = LinkTable::of(alloc, board)?;
    let wired = Wired {
        ordered,
        board,
        plan,
        wires: &table,
        links: &links,
    };
    let hops = hop_fault(alloc, &wired)?;
    if hops.is_some() {
        return Ok(hops);
    }
    microcycle_fault(alloc, &wired)
}

/// Checks a plan: it is sound, or this is its first fault. The faults are tried in the order of their variants, each over the
/// whole plan, at its first place. On a refusal the three are handed back.
pub fn check(
    alloc: Global,
    ordered: Ordered,
    board: Board,
    plan: Plan,
) -> Result<Checked, CheckRefused>
    // A plan that is accepted has no fault, and the three are as they were handed in.
    ensures accepted { IfOk result (λ checked.
        IsAcceptedPlan (planned_board ordered board plan) checked) }

    // Else it has this fault, which breaks a point of a sound plan, or memory ran out; the three are handed back.
    ensures refused { IfErr result (λ refused.
        IsRefusedPlan (planned_board ordered board plan) refused) }
{
    faultless_plans_are_sound();
    faults_break_points();
    match plan_fault(alloc, &ordered, &board, &plan) {
        Ok(None) => Ok(Checked::make(ordered, board, plan)),
        Ok(Some(fault)) => Err(CheckRefused {
            fault,
            ordered,
            board,
            plan,
        }),
        Err(_) => Err(CheckRefused {
            fault: PlanFault::NoMemory,
            ordered,
            board,
            plan,
        }),
    }
}

//! From a design and a board to a plan.
ghost use Rattle.std.specs.Prelude.{◌≡◌, ◌≤◌, ℕ, length, IfOk, IfErr};
ghost use Rattle.std.specs.List.{All};
ghost use Rattle.vw_plan.specs.Chips.{IsChip, cells_on};
ghost use Rattle.vw_plan.specs.Good.{IsGood, NoExchangeHelps, NoMoveHelps};
ghost use Rattle.vw_plan.specs.PlannedBoard.{planned_board};
ghost use Rattle.vw_run.specs.GivenChips.{IsCompiledFor, IsPlanFor};
ghost use Rattle.vw_run.specs.Compiled.{IsCompileFault, IsCompiled, IsCompileRefused};

use crate::better::{better, has_many_wires, most_wires};
use crate::fault::{CompileFault, CompileRefused};
use crate::routes::routes_of;
use crate::way::{FIRST_WAY, OTHER_WAYS, ROUND_WAY, Way, shorter};
use std::alloc::{AllocError, Global};
use vw_board::Distances;
use vw_multilevel::{Urgency, again, hint, renumbered, rounds};
use vw_net::{Ordered, Sequence};
use vw_part::{PartFault, partition_from};
use vw_pipe::schedule;
use vw_place::place;
use vw_plan::{Board, Checked, Plan};

/// Refuses a design that has more cells than all chips have room for, before any work is done for it.
fn check_room(ordered: &Ordered, board: &Board) -> Result<(), CompileFault>
    ensures { IfErr result (IsCompileFault ordered.now board.now) }
{
    let cells = ordered.flat().cells().len() as u64;
    let room = u64::from(board.chips()) * u64::from(board.cells());
    if cells > room {
        return Err(CompileFault::TooManyCells { cells, room });
    }
    Ok(())
}

/// The chip of each cell, so that neither a move of one cell nor an exchange of two chips helps. Which of these placements it
/// is rests on the wishes.
fn placement_of(
    alloc: Global,
    ordered: &Ordered,
    board: &Board,
    distances: &Distances,
    wishes: &[u32],
) -> Result<Sequence<u32>, CompileFault>
    requires distances { distances.now ≡ board.now }
    ensures each { IfOk result (λ chip_of. length chip_of ≡ length ordered.now.flat.cells) }
    ensures chips { IfOk result (All (IsChip board.now)) }
    ensures room { IfOk result (λ chip_of. (chip : ℕ) → cells_on chip_of chip ≤ board.now.cells) }
    ensures moves { IfOk result (NoMoveHelps ordered.now.flat board.now) }
    ensures exchanges { IfOk result (NoExchangeHelps ordered.now.flat board.now) }
    ensures fault { IfErr result (IsCompileFault ordered.now board.now) }
{
    let parts = match partition_from(alloc, ordered, board, wishes) {
        Ok(parts) => parts,
        Err(PartFault::TooManyCells { cells, room }) => {
            return Err(CompileFault::TooManyCells { cells, room });
        }
        Err(PartFault::NoMemory) => return Err(CompileFault::NoMemory),
    };
    match place(alloc, ordered, board, distances, parts) {
        Ok(chip_of) => Ok(chip_of),
        Err(_) => Err(CompileFault::NoMemory),
    }
}

/// A plan for these chips, given how far the nodes are, which walks its wires take, and what is sent first.
fn plan_for(
    alloc: Global,
    ordered: &Ordered,
    board: &Board,
    distances: &Distances,
    chip_of: Sequence<u32>,
    way: Way,
) -> Result<Plan, AllocError>
    requires distances { distances.now ≡ board.now }
    requires each { length chip_of ≡ length ordered.now.flat.cells }
    requires chips { All (IsChip board.now) chip_of }
    requires room { (chip : ℕ) → cells_on chip_of chip ≤ board.now.cells }
    ensures { IfOk result (IsPlanFor ordered.now board.now chip_of) }
{
    let routes = routes_of(
        alloc,
        ordered,
        board,
        distances,
        chip_of.as_slice(),
        way.routing,
    )?;
    match schedule(alloc, ordered, board, chip_of, routes, way.priority) {
        Ok(plan) => Ok(plan),
        Err(_) => Err(AllocError),
    }
}

/// The plan for these chips of the least period, of those of all ways.
fn best_plan_for(
    alloc: Global,
    ordered: &Ordered,
    board: &Board,
    distances: &Distances,
    chip_of: &[u32],
) -> Result<Plan, AllocError>
    requires distances { distances.now ≡ board.now }
    requires each { length chip_of.now ≡ length ordered.now.flat.cells }
    requires chips { All (IsChip board.now) chip_of.now }
    requires room { (chip : ℕ) → cells_on chip_of.now chip ≤ board.now.cells }
    ensures { IfOk result (IsPlanFor ordered.now board.now chip_of.now) }
{
    let chips = Sequence::of(chip_of.to_vec(alloc)?);
    let mut best = plan_for(alloc, ordered, board, distances, chips, FIRST_WAY)?;
    for way in &OTHER_WAYS {
        let chips = Sequence::of(chip_of.to_vec(alloc)?);
        let next = plan_for(alloc, ordered, board, distances, chips, *way)?;
        best = shorter(ordered, board, chip_of, best, next);
    }
    Ok(best)
}

/// A good plan, given how far the nodes are, and wishes for the cells' chips. It is good whatever the wishes are.
fn plan_from(
    alloc: Global,
    ordered: &Ordered,
    board: &Board,
    distances: &Distances,
    wishes: &[u32],
) -> Result<Plan, CompileFault>
    requires distances { distances.now ≡ board.now }
    ensures good { IfOk result (λ plan. IsGood (planned_board ordered.now board.now plan)) }
    ensures fault { IfErr result (IsCompileFault ordered.now board.now) }
{
    let chip_of = placement_of(alloc, ordered, board, distances, wishes)?;
    let plan = plan_for(alloc, ordered, board, distances, chip_of, ROUND_WAY)?;
    Ok(plan)
}

/// The same by the best of all ways.
fn best_plan_from(
    alloc: Global,
    ordered: &Ordered,
    board: &Board,
    distances: &Distances,
    wishes: &[u32],
) -> Result<Plan, CompileFault>
    requires distances { distances.now ≡ board.now }
    ensures good { IfOk result (λ plan. IsGood (planned_board ordered.now board.now plan)) }
    ensures fault { IfErr result (IsCompileFault ordered.now board.now) }
{
    let chip_of = placement_of(alloc, ordered, board, distances, wishes)?;
    let plan = best_plan_for(alloc, ordered, board, distances, chip_of.as_slice())?;
    Ok(plan)
}

/// A good plan with the chips of another one, by the best of all ways.
fn polished(
    alloc: Global,
    ordered: &Ordered,
    board: &Board,
    distances: &Distances,
    plan: Plan,
) -> Result<Plan, CompileFault>
    requires distances { distances.now ≡ board.now }
    requires good { IsGood (planned_board ordered.now board.now plan) }
    ensures good { IfOk result (λ plan. IsGood (planned_board ordered.now board.now plan)) }
    ensures fault { IfErr result (IsCompileFault ordered.now board.now) }
{
    let next = best_plan_for(alloc, ordered, board, distances, plan.chip_of())?;
    if next.period() < plan.period() {
        return Ok(next);
    }
    Ok(plan)
}

/// From how many wires on a plan costs so much that there are few rounds.
const MANY_WIRES: usize = 32_768;

/// How many rounds follow a first plan: those that the design is worth, and two at most where there are very many wires, since
/// each round makes a plan, and where most nets are cut it finds little.
fn rounds_after(ordered: &Ordered, board: &Board, first: &Plan) -> u32 {
    let worth = rounds(ordered, board);
    if first.wires().len() < MANY_WIRES {
        return worth;
    }
    worth.min(2)
}

/// The best of a good plan and of those that some rounds make that haven't more than so many wires. Each round has wishes that
/// are made of the plan before it, also where that has more: then the next one looks less at paths and more at wires. Where
/// eight in a row wish for nothing new, no further one does, since rounds repeat. Want of memory in a round is want of memory:
/// else a plan would rest on how much of it there is.
fn refined(
    alloc: Global,
    ordered: &Ordered,
    board: &Board,
    distances: &Distances,
    first: Plan,
    most: u64,
) -> Result<Plan, CompileFault>
    requires distances { distances.now ≡ board.now }
    requires good { IsGood (planned_board ordered.now board.now first) }
    ensures good { IfOk result (λ plan. IsGood (planned_board ordered.now board.now plan)) }
    ensures fault { IfErr result (IsCompileFault ordered.now board.now) }
{
    let rounds = rounds_after(ordered, board, &first);
    let mut last = first.chip_of().to_vec(alloc)?;
    let mut best = first;
    let mut urgency = Urgency::first();
    let mut still: u32 = 0;
    for round in 0..rounds {
        if still == 8 {
            break;
        }
        let wishes = again(alloc, ordered, board, last.as_slice(), round, urgency)?;
        if wishes.as_slice() == last.as_slice() {
            urgency = urgency.after(round, false);
            still = still.saturating_add(1);
            continue;
        }
        still = 0;
        let next = plan_from(alloc, ordered, board, distances, wishes.as_slice())?;
        urgency = urgency.after(round, has_many_wires(&next, most));
        last = next.chip_of().to_vec(alloc)?;
        best = better(ordered, board, best, next, most);
    }
    Ok(best)
}

/// The best of a good plan and of those that a few other starts of its placement lead to that haven't more than so many wires:
/// the same parts, with their chips numbered anew. None has a longer period.
fn started_anew(
    alloc: Global,
    ordered: &Ordered,
    board: &Board,
    distances: &Distances,
    plan: Plan,
    most: u64,
) -> Result<Plan, CompileFault>
    requires distances { distances.now ≡ board.now }
    requires good { IsGood (planned_board ordered.now board.now plan) }
    ensures good { IfOk result (λ plan. IsGood (planned_board ordered.now board.now plan)) }
    ensures fault { IfErr result (IsCompileFault ordered.now board.now) }
{
    let parts = plan.chip_of().to_vec(alloc)?;
    let mut best = plan;
    for seed in 1..5u32 {
        let wishes = renumbered(alloc, board, parts.as_slice(), seed)?;
        let next = plan_from(alloc, ordered, board, distances, wishes.as_slice())?;
        best = better(ordered, board, best, next, most);
    }
    Ok(best)
}

/// A good plan, given how far the nodes are.
fn plan_by(
    alloc: Global,
    ordered: &Ordered,
    board: &Board,
    distances: &Distances,
) -> Result<Plan, CompileFault>
    requires distances { distances.now ≡ board.now }
    ensures good { IfOk result (λ plan. IsGood (planned_board ordered.now board.now plan)) }
    ensures fault { IfErr result (IsCompileFault ordered.now board.now) }
{
    check_room(ordered, board)?;
    let wishes = hint(alloc, ordered, board)?;
    let first = best_plan_from(alloc, ordered, board, distances, wishes.as_slice())?;
    drop(wishes);
    if board.chips() < 2 {
        return Ok(first);
    }
    let most = most_wires(&first);
    let best = refined(alloc, ordered, board, distances, first, most)?;
    let best = started_anew(alloc, ordered, board, distances, best, most)?;
    polished(alloc, ordered, board, distances, best)
}

/// A good plan.
fn good_plan_of(alloc: Global, ordered: &Ordered, board: &Board) -> Result<Plan, CompileFault>
    ensures good { IfOk result (λ plan. IsGood (planned_board ordered.now board.now plan)) }
    ensures fault { IfErr result (IsCompileFault ordered.now board.now) }
{
    let distances = Distances::of(alloc, board)?;
    plan_by(alloc, ordered, board, &distances)
}

/// A design on a board, with a plan for given chips: it is sound and has exactly these chips, its wires stand by net and then by
/// node, each wire is as short as it can be, each hop as early as its link has a free pin once its net is there, and no smaller
/// period is sound. That is all that is said of a good plan, but that other chips may be better.
pub fn compile_for(
    alloc: Global,
    ordered: Ordered,
    board: Board,
    chip_of: Sequence<u32>,
) -> Result<Checked, AllocError>
    requires each { length chip_of ≡ length ordered.flat.cells }
    requires chips { All (IsChip board) chip_of }
    requires room { (chip : ℕ) → cells_on chip_of chip ≤ board.cells }
    ensures { IfOk result (IsCompiledFor ordered board chip_of) }
{
    let distances = Distances::of(alloc, &board)?;
    let plan = best_plan_for(alloc, &ordered, &board, &distances, chip_of.as_slice())?;
    drop(distances);
    Ok(Checked::make(ordered, board, plan))
}

/// A design on a board, with a good plan: it is sound, its wires stand by net and then by node, no move of a cell lowers the
/// number of needed pairs, no exchange of two chips shortens their way, each wire is as short as it can be, each hop as early
/// as its link has a free pin once its net is there, and no smaller period is sound. On a refusal the design and the board are handed back.
pub fn compile(alloc: Global, ordered: Ordered, board: Board) -> Result<Checked, CompileRefused>
    ensures compiled { IfOk result (IsCompiled ordered board) }
    ensures refused { IfErr result (IsCompileRefused ordered board) }
{
    match good_plan_of(alloc, &ordered, &board) {
        Ok(plan) => Ok(Checked::make(ordered, board, plan)),
        Err(fault) => Err(CompileRefused {
            fault,
            ordered,
            board,
        }),
    }
}

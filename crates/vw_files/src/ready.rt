//! A design on its board with its plan, ready to run.
ghost use Rattle.vw_course.specs.Goes.{EndsPart};
ghost use Rattle.vw_courses.specs.Commands.{on_board_course, plan_then, ready_course};
ghost use Rattle.vw_courses.specs.MayPlan.{for_chips, made_here, of_file};
ghost use Rattle.vw_courses.specs.Messages.{vocabulary};
ghost use Rattle.vw_files.specs.Ready.{IsOnBoard, IsPlanned, IsReadyBoard, by_of, cut_there};

use crate::board_files::{BoardFiles, PlanBy};
use crate::checked::{good_plan, placed_plan, sound_plan};
use crate::files::{read_board, read_design, read_given_chips, read_given_plan};
use std::alloc::Global;
use vw_courses::Unfinished;
use vw_net::Ordered;
use vw_outside::{Name, Shelf};
use vw_plan::{Board, Checked};

/// Reads the plan that is given, and checks it.
fn ready_given<S: Shelf>(
    alloc: Global,
    ordered: Ordered,
    board: Board,
    plan: &[u8],
    shelf: &mut S,
) -> Result<Checked, Unfinished>
    ensures { EndsPart vocabulary (plan_then (of_file plan.now) ordered board (cut_there ordered board))
        (IsPlanned (S.seen shelf.old).told (of_file plan.now) ordered board)
        (S.seen shelf.old) (S.seen shelf.new) result }
{
    let plan = read_given_plan(alloc, shelf, plan)?;
    sound_plan(alloc, ordered, board, plan)
}

/// Makes a plan, for which nothing is read.
fn ready_made<S: Shelf>(
    alloc: Global,
    ordered: Ordered,
    board: Board,
    shelf: &mut S,
) -> Result<Checked, Unfinished>
    ensures { EndsPart vocabulary (plan_then made_here ordered board (cut_there ordered board))
        (IsPlanned (S.seen shelf.old).told made_here ordered board)
        (S.seen shelf.old) (S.seen shelf.new) result }
{
    let _ = shelf;
    good_plan(alloc, ordered, board)
}

/// Reads the chips that are given, and makes a plan for them.
fn ready_for_chips<S: Shelf>(
    alloc: Global,
    ordered: Ordered,
    board: Board,
    chips: &[u8],
    shelf: &mut S,
) -> Result<Checked, Unfinished>
    ensures { EndsPart vocabulary (plan_then (for_chips chips.now) ordered board (cut_there ordered board))
        (IsPlanned (S.seen shelf.old).told (for_chips chips.now) ordered board)
        (S.seen shelf.old) (S.seen shelf.new) result }
{
    let chips = read_given_chips(alloc, shelf, chips)?;
    placed_plan(alloc, ordered, board, chips)
}

/// Gets a plan in the way that is asked for.
fn ready_with_plan<S: Shelf>(
    alloc: Global,
    ordered: Ordered,
    board: Board,
    plan: PlanBy<'_>,
    shelf: &mut S,
) -> Result<Checked, Unfinished>
    ensures { EndsPart vocabulary
        (plan_then (by_of plan.entry) ordered board (cut_there ordered board))
        (IsPlanned (S.seen shelf.old).told (by_of plan.entry) ordered board)
        (S.seen shelf.old) (S.seen shelf.new) result }
{
    match plan {
        PlanBy::Made => ready_made(alloc, ordered, board, shelf),
        PlanBy::Given(plan) => ready_given(alloc, ordered, board, plan, shelf),
        PlanBy::Chips(chips) => ready_for_chips(alloc, ordered, board, chips, shelf),
    }
}

/// Reads the board, and gets a plan of a design on it, which is sound.
pub fn ready_on_board<S: Shelf>(
    alloc: Global,
    ordered: Ordered,
    board: &Name,
    plan: PlanBy<'_>,
    shelf: &mut S,
) -> Result<Checked, Unfinished>
    ensures { EndsPart vocabulary
        (on_board_course board.now (by_of plan.entry) cut_there ordered)
        (IsOnBoard (S.seen shelf.old).told board.now (by_of plan.entry) ordered)
        (S.seen shelf.old) (S.seen shelf.new) result }
{
    let board = read_board(alloc, shelf, board)?;
    ready_with_plan(alloc, ordered, board, plan, shelf)
}

/// Reads a design with its probes and a board, and gets a plan of it, which is sound.
pub fn ready_board<S: Shelf>(
    alloc: Global,
    files: &BoardFiles<'_, '_, '_, '_>,
    shelf: &mut S,
) -> Result<Checked, Unfinished>
    ensures { let by = by_of files.now.plan in EndsPart vocabulary
        (ready_course files.now.probes.nets.now files.now.design.now files.now.board.now by cut_there)
        (IsReadyBoard files.now.probes.nets.now (S.seen shelf.old).told files.now.design.now
        files.now.board.now by)
        (S.seen shelf.old) (S.seen shelf.new) result }
{
    let ordered = read_design(alloc, shelf, files.design, files.probes)?;
    ready_on_board(alloc, ordered, files.board, files.plan, shelf)
}

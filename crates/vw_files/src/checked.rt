//! Plans that commands go on by: checked ones, and ones that are made.
ghost use Rattle.std.specs.Prelude.{◌<◌, ◌^◌, length};
ghost use Rattle.vw_course.specs.Stages.{EndsJudging};
ghost use Rattle.vw_plan.specs.PlannedBoard.{planned_board};
ghost use Rattle.vw_run.specs.Compiled.{IsCompiled};
ghost use Rattle.vw_run.specs.GivenChips.{IsCompiledFor};
ghost use Rattle.vw_courses.specs.Kinds.{IsBadChips, IsBadFit, IsBadPlan};
ghost use Rattle.vw_files.specs.Ready.{EndsFault, IsCheckedPlan};

use std::alloc::Global;
use vw_check::{PlanFault, check, chips_fault};
use vw_courses::{Reason, Unfinished};
use vw_net::{Ordered, Sequence};
use vw_plan::{Board, Checked, Plan};
use vw_run::{CompileFault, compile, compile_for};

/// The end of a command whose plan has a fault.
fn unsound(fault: PlanFault) -> Unfinished
    ensures { EndsFault fault result }
{
    if fault == PlanFault::NoMemory {
        return Unfinished::NoMemory;
    }
    Unfinished::Refused(Reason::Plan(fault))
}

/// The plan, if it is sound.
pub fn sound_plan(
    alloc: Global,
    ordered: Ordered,
    board: Board,
    plan: Plan,
) -> Result<Checked, Unfinished>
    ensures { EndsJudging (IsCheckedPlan (planned_board ordered board plan))
        (IsBadPlan (planned_board ordered board plan)) result }
{
    match check(alloc, ordered, board, plan) {
        Ok(checked) => Ok(checked),
        Err(refused) => {
            let fault = refused.fault;
            drop(refused);
            Err(unsound(fault))
        }
    }
}

/// A plan for these chips, if each cell has a place.
pub fn placed_plan(
    alloc: Global,
    ordered: Ordered,
    board: Board,
    chips: Sequence<u32>,
) -> Result<Checked, Unfinished>
    requires { length chips < 2 ^ 32 }
    ensures { EndsJudging (IsCompiledFor ordered board chips) (IsBadChips ordered board chips) result }
{
    if let Some(fault) = chips_fault(&ordered, &board, chips.as_slice()) {
        return Err(Unfinished::Refused(Reason::Plan(fault)));
    }
    match compile_for(alloc, ordered, board, chips) {
        Ok(checked) => Ok(checked),
        Err(_) => Err(Unfinished::NoMemory),
    }
}

/// A good plan, if the cells have room.
pub fn good_plan(alloc: Global, ordered: Ordered, board: Board) -> Result<Checked, Unfinished>
    ensures { EndsJudging (IsCompiled ordered board) (IsBadFit ordered board) result }
{
    match compile(alloc, ordered, board) {
        Ok(checked) => Ok(checked),
        Err(refused) => match refused.fault {
            CompileFault::NoMemory => Err(Unfinished::NoMemory),
            fault => Err(Unfinished::Refused(Reason::Fit(fault))),
        },
    }
}

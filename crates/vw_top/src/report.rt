//! The command `report`.
ghost use Rattle.vw_course.specs.Goes.{Goes};
ghost use Rattle.vw_course.specs.Stages.{EndsJudging};
ghost use Rattle.vw_plan.specs.PlannedBoard.{planned_board};
ghost use Rattle.vw_courses.specs.Commands.{on_board_course, report_course, report_rest};
ghost use Rattle.vw_courses.specs.Messages.{vocabulary};
ghost use Rattle.vw_files.specs.Ready.{by_of};
ghost use Rattle.vw_top.specs.Stages.{IsNoReason, IsReportText};

use std::alloc::Global;
use vw_course::{Outside, answer_of};
use vw_courses::Unfinished;
use vw_files::{BoardFiles, PlanBy, read_named_design, ready_on_board};
use vw_front::NamedNetlist;
use vw_net::Sequence;
use vw_outside::{Name, Shelf, Sink, put_text};
use vw_plan::Checked;

/// The report of a sound plan whose nets have these names.
fn report_text(alloc: Global, checked: &Checked, names: &[Name]) -> Result<Vec<u8>, Unfinished>
    ensures { let planned = planned_board checked.now.ordered checked.now.board checked.now.plan in
        EndsJudging (IsReportText planned names.now) IsNoReason result }
{
    match vw_report::report_text(alloc, checked, names) {
        Ok(text) => Ok(text),
        Err(_) => Err(Unfinished::NoMemory),
    }
}

/// Writes the report of a sound plan whose nets have these names.
fn report_plan<S: Shelf, O: Sink>(
    alloc: Global,
    checked: Checked,
    names: Sequence<Name>,
    outside: &mut Outside<'_, '_, S, O>,
) -> Result<(), Unfinished>
    ensures { Goes S.seen O.seen vocabulary
        (report_rest names checked.ordered checked.board checked.plan)
        outside.old outside.new result }
{
    let text = report_text(alloc, &checked, names.as_slice())?;
    drop(checked);
    drop(names);
    answer_of(put_text(Ok(text), outside.out))
}

/// Reads a board, gets a plan of a design on it, and writes its report.
fn report_on_board<S: Shelf, O: Sink>(
    alloc: Global,
    named: NamedNetlist,
    board: &Name,
    plan: PlanBy<'_>,
    outside: &mut Outside<'_, '_, S, O>,
) -> Result<(), Unfinished>
    ensures { Goes S.seen O.seen vocabulary
        (on_board_course board.now (by_of plan.entry) (report_rest named.nets) named.ordered)
        outside.old outside.new result }
{
    let (ordered, names) = named.into_parts();
    let checked = ready_on_board(alloc, ordered, board, plan, outside.shelf)?;
    report_plan(alloc, checked, names, outside)
}

/// Writes a plan of a design with its probes on a board, the one that is given or one that is made, in numbers and names.
pub fn write_report<S: Shelf, O: Sink>(
    alloc: Global,
    files: &BoardFiles<'_, '_, '_, '_>,
    outside: &mut Outside<'_, '_, S, O>,
) -> Result<(), Unfinished>
    ensures { Goes S.seen O.seen vocabulary
        (report_course files.now.probes.nets.now files.now.design.now files.now.board.now
        (by_of files.now.plan))
        outside.old outside.new result }
{
    let named = read_named_design(alloc, outside.shelf, files.design, files.probes)?;
    report_on_board(alloc, named, files.board, files.plan, outside)
}

//! The command `emit`.
ghost use Rattle.vw_course.specs.Goes.{Goes};
ghost use Rattle.vw_course.specs.Stages.{EndsJudging};
ghost use Rattle.vw_emit_text.specs.Emitted.{FitsDesigns, emitted_text};
ghost use Rattle.vw_plan.specs.PlannedBoard.{planned_board};
ghost use Rattle.vw_courses.specs.Commands.{emit_rest, ready_course};
ghost use Rattle.vw_courses.specs.Kinds.{IsBadEmission};
ghost use Rattle.vw_courses.specs.Messages.{vocabulary};
ghost use Rattle.vw_files.specs.Ready.{by_of};
ghost use Rattle.vw_top.specs.Stages.{IsEmitted};

use std::alloc::Global;
use vw_course::{Outside, answer_of};
use vw_courses::{Reason, Unfinished};
use vw_emit::EmitFault;
use vw_files::{BoardFiles, ready_board};
use vw_outside::{Shelf, Sink, put_text};
use vw_plan::Checked;

/// A planned board as the text of a design, where it is within the limits of designs.
fn board_text(alloc: Global, checked: &Checked) -> Result<Vec<u8>, Unfinished>
    ensures { let planned = planned_board checked.now.ordered checked.now.board checked.now.plan in
        EndsJudging (IsEmitted planned) (IsBadEmission planned) result }
{
    match vw_emit::emit(alloc, checked) {
        Ok(text) => Ok(text),
        Err(EmitFault::NoMemory) => Err(Unfinished::NoMemory),
        Err(fault) => Err(Unfinished::Refused(Reason::Emit(fault))),
    }
}

/// Writes a planned board as a design, where it is within the limits of designs.
fn emit_board<S: Shelf, O: Sink>(
    alloc: Global,
    checked: Checked,
    outside: &mut Outside<'_, '_, S, O>,
) -> Result<(), Unfinished>
    ensures { Goes S.seen O.seen vocabulary (emit_rest checked.ordered checked.board checked.plan)
        outside.old outside.new result }
{
    let text = board_text(alloc, &checked)?;
    drop(checked);
    answer_of(put_text(Ok(text), outside.out))
}

/// Writes a design on a board, with the plan that is given or one that is made, as a design.
pub fn emit<S: Shelf, O: Sink>(
    alloc: Global,
    files: &BoardFiles<'_, '_, '_, '_>,
    outside: &mut Outside<'_, '_, S, O>,
) -> Result<(), Unfinished>
    ensures { Goes S.seen O.seen vocabulary
        (ready_course files.now.probes.nets.now files.now.design.now files.now.board.now
        (by_of files.now.plan) emit_rest)
        outside.old outside.new result }
{
    let checked = ready_board(alloc, files, outside.shelf)?;
    emit_board(alloc, checked, outside)
}

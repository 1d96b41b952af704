//! The command `plan`.
ghost use Rattle.vw_course.specs.Goes.{Goes};
ghost use Rattle.vw_outside.specs.Writes.{WritesOut};
ghost use Rattle.vw_courses.specs.Commands.{plan_rest, ready_course, text_of_plan};
ghost use Rattle.vw_courses.specs.Messages.{vocabulary};
ghost use Rattle.vw_files.specs.Ready.{by_of};

use std::alloc::Global;
use vw_course::{Outside, answer_of};
use vw_courses::Unfinished;
use vw_files::{BoardFiles, ready_board};
use vw_outside::{Shelf, Sink, Unwritten, put_text};
use vw_plan::Checked;
use vw_plantext::print;

/// Writes the text of a plan.
fn write_plan<O: Sink>(alloc: Global, checked: Checked, out: &mut O) -> Result<(), Unwritten>
    ensures { WritesOut (text_of_plan checked.plan) (O.seen out.old) (O.seen out.new) result }
{
    let text = print(alloc, checked.plan());
    drop(checked);
    put_text(text, out)
}

/// Makes a plan of a design with its probes on a board, with the chips that are given or with good ones, and writes its text.
pub fn plan<S: Shelf, O: Sink>(
    alloc: Global,
    files: &BoardFiles<'_, '_, '_, '_>,
    outside: &mut Outside<'_, '_, S, O>,
) -> Result<(), Unfinished>
    ensures { Goes S.seen O.seen vocabulary
        (ready_course files.now.probes.nets.now files.now.design.now files.now.board.now
        (by_of files.now.plan) plan_rest)
        outside.old outside.new result }
{
    let checked = ready_board(alloc, files, outside.shelf)?;
    answer_of(write_plan(alloc, checked, outside.out))
}

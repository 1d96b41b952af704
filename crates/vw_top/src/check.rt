//! The command `check`.
ghost use Rattle.std.specs.Prelude.{◌≡◌, IfOk};
ghost use Rattle.vw_course.specs.Goes.{Goes};
ghost use Rattle.vw_outside.specs.Writes.{WritesOut};
ghost use Rattle.vw_courses.specs.Commands.{ready_course, size_rest, sound_text};
ghost use Rattle.vw_courses.specs.Messages.{vocabulary};
ghost use Rattle.vw_files.specs.Ready.{by_of};

use std::alloc::{AllocError, Global};
use vw_course::{Outside, answer_of};
use vw_courses::Unfinished;
use vw_files::{BoardFiles, ready_board};
use vw_outside::{Shelf, Sink, Unwritten, put_text};
use vw_plan::{Checked, Plan};

/// What is written of a sound plan.
fn sound_line(alloc: Global, plan: &Plan) -> Result<Vec<u8>, AllocError>
    ensures { IfOk result (λ line. line.items ≡ sound_text plan.now) }
{
    let wires = plan.wires().len();
    let hops = plan.hops();
    let period = plan.period();
    let line = format!(in alloc; "sound {wires} {hops} {period}\n")?;
    Ok(line.into_bytes())
}

/// Writes that a plan is sound.
fn write_sound<O: Sink>(alloc: Global, checked: Checked, out: &mut O) -> Result<(), Unwritten>
    ensures { WritesOut (sound_text checked.plan) (O.seen out.old) (O.seen out.new) result }
{
    let line = sound_line(alloc, checked.plan());
    drop(checked);
    put_text(line, out)
}

/// Checks a plan of a design with its probes on a board, and writes its size where it is sound.
pub fn check<S: Shelf, O: Sink>(
    alloc: Global,
    files: &BoardFiles<'_, '_, '_, '_>,
    outside: &mut Outside<'_, '_, S, O>,
) -> Result<(), Unfinished>
    ensures { Goes S.seen O.seen vocabulary
        (ready_course files.now.probes.nets.now files.now.design.now files.now.board.now
        (by_of files.now.plan) size_rest)
        outside.old outside.new result }
{
    let checked = ready_board(alloc, files, outside.shelf)?;
    answer_of(write_sound(alloc, checked, outside.out))
}

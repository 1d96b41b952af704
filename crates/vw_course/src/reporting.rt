ghost use Rattle.std.specs.Prelude.{◌≡◌, ⊤};
ghost use Rattle.vw_course.specs.Vocabulary.{vocabulary_of};
ghost use Rattle.vw_course.specs.Endings.{IsReported};
ghost use Rattle.vw_course.specs.Stages.{EndsUnfinished};

use crate::unfinished::Unfinished;
use crate::vocabulary::{CommandFile, RefusalReason};
use std::alloc::Global;
use vw_outside::{Sink, put_all};

/// Writes a message line, and gives the exit status that goes with it.
fn put_line<E: Sink>(err: &mut E, line: &[u8], status: u8) -> u8
    ensures is { result ≡ status }
    ensures reported { IsReported line.now (E.seen err.old) (E.seen err.new) }
{
    let _ = put_all(err, line);
    status
}

/// Writes the message line of a call that wasn't carried out, and gives the exit status. Where there is no memory
/// for the line of a refusal, the call ends with want of memory. A fault of `err` changes no status.
pub fn report<F: CommandFile, R: RefusalReason, E: Sink>(
    alloc: Global,
    unfinished: &Unfinished<F, R>,
    err: &mut E,
) -> u8
    ensures { EndsUnfinished
        (vocabulary_of F R ⊤ F.fault_line R.exit_status R.message R.some R.few) unfinished.now
        (E.seen err.old) (E.seen err.new) result }
{
    match unfinished {
        Unfinished::ReadFault(file) => put_line(err, file.read_line(), 7),
        Unfinished::WriteFault => put_line(err, b"write fault\n", 8),
        Unfinished::NoMemory => put_line(err, b"out of memory\n", 9),
        Unfinished::Refused(reason) => match reason.line(alloc) {
            Ok(line) => put_line(err, &line, reason.status()),
            Err(_) => put_line(err, b"out of memory\n", 9),
        },
    }
}

//! The command `grade`.
ghost use Rattle.std.specs.Prelude.{◌≡◌, ◌+◌, length, IfOk, option_map};
ghost use Rattle.std.specs.List.{All};
ghost use Rattle.vw_net.specs.Cells.{latch_count};
ghost use Rattle.vw_course.specs.Goes.{Goes};
ghost use Rattle.vw_trace.specs.Streamed.{Streams};
ghost use Rattle.vw_courses.specs.Commands.{flat_grading, grade_course, graded_text, grading_course};
ghost use Rattle.vw_courses.specs.Steps.Commands.{share_view};
ghost use Rattle.vw_courses.specs.Messages.{vocabulary};

use crate::answer::run_answer;
use std::alloc::{AllocError, Global};
use std::marker::Sync;
use std::thread::Threads;
use vw_course::Outside;
use vw_courses::{GradeSettings, Unfinished};
use vw_fault::{grading_text, share_text};
use vw_files::{Probes, check_rows, read_named_design};
use vw_front::NamedNetlist;
use vw_net::{Bits, Ordered, Rows};
use vw_outside::{Name, Shelf, Sink, put_text};
use vw_rows::Rereading;
use vw_trace::RunFault;

/// The text of the grading of a netlist whose nets are printed so, or of the share of its faults that the settings ask for. At
/// most 64 workers share the faults, and at least one does.
fn graded_text<R: Threads + Sync>(
    rt: &R,
    alloc: Global,
    ordered: &Ordered,
    names: &[Name],
    settings: GradeSettings,
    start: &Bits,
    rows: &Rows,
) -> Result<Vec<u8>, AllocError>
    requires names { length names.now
        ≡ ordered.now.flat.inputs + length ordered.now.flat.cells }
    requires latches { length start.now ≡ latch_count ordered.now.flat.cells }
    requires columns { All (λ row. length row ≡ ordered.now.flat.inputs) rows.now }
    ensures { IfOk result (λ text. text.items
        ≡ graded_text (share_view settings) names.now ordered.now.flat start.now rows.now) }
{
    let workers = settings.workers.min(64).max(1) as u32;
    match settings.share {
        Some(share) => share_text(rt, alloc, ordered, names, share, start, rows, workers),
        None => grading_text(rt, alloc, ordered, names, start, rows, workers),
    }
}

/// Reads all rows that a stimulus still gives, and appends the grading of a netlist whose nets are printed so. The rows are held
/// whole, and nothing is written before the whole text is made.
fn grade_rows<R: Threads + Sync, S: Shelf, O: Sink>(
    rt: &R,
    alloc: Global,
    ordered: &Ordered,
    names: &[Name],
    settings: GradeSettings,
    again: &mut Rereading<'_, '_, S>,
    out: &mut O,
) -> Result<(), RunFault>
    requires columns { again.old.stimulus.now.width ≡ ordered.now.flat.inputs }
    requires names { length names.now
        ≡ ordered.now.flat.inputs + length ordered.now.flat.cells }
    ensures shelf { again.new.shelf.ghost_name ≡ again.old.shelf.ghost_name }
    ensures streams { Streams (flat_grading (share_view settings) names.now settings.unknown ordered.now.flat) (λ _. Unit {0})
        again.old again.new (O.seen out.old) (O.seen out.new) result }
{
    let start = ordered.flat().start(alloc, settings.unknown)?;
    let rows = again.next_batch(alloc, u32::MAX)?;
    let text = graded_text(rt, alloc, ordered, names, settings, &start, &rows);
    put_text(text, out)?;
    Ok(())
}

/// Checks the stimulus, and writes the grading of a netlist by its rows, as they are read again.
fn grade_netlist<R: Threads + Sync, S: Shelf, O: Sink>(
    rt: &R,
    alloc: Global,
    named: NamedNetlist,
    stimulus: &Name,
    settings: GradeSettings,
    outside: &mut Outside<'_, '_, S, O>,
) -> Result<(), Unfinished>
    ensures { Goes S.seen O.seen vocabulary (grading_course (share_view settings) stimulus.now settings.unknown named) outside.old
        outside.new
        result }
{
    let mut rows = check_rows(alloc, outside.shelf, stimulus, &named.ordered)?;
    let mut again = Rereading {
        stimulus: &mut rows,
        shelf: outside.shelf,
    };
    let graded = grade_rows(
        rt,
        alloc,
        &named.ordered,
        named.nets.as_slice(),
        settings,
        &mut again,
        outside.out,
    );
    run_answer(graded)
}

/// Reads a design and a stimulus, and writes which stuck nets of the design the rows don't reveal, or of a share of them. What
/// is written is the same for each number of workers.
pub fn grade<R: Threads + Sync, S: Shelf, O: Sink>(
    rt: &R,
    alloc: Global,
    design: &Name,
    stimulus: &Name,
    settings: GradeSettings,
    outside: &mut Outside<'_, '_, S, O>,
) -> Result<(), Unfinished>
    ensures { Goes S.seen O.seen vocabulary (grade_course (share_view settings) design.now stimulus.now settings.unknown)
        outside.old outside.new result }
{
    let none = Probes {
        nets: &[],
        until: false,
    };
    let named = read_named_design(alloc, outside.shelf, design, none)?;
    grade_netlist(rt, alloc, named, stimulus, settings, outside)
}

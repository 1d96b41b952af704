//! The command `demo`: a run of generated texts in memory, of whose trace a summary is written.
ghost use Rattle.std.specs.Prelude.{◌≡◌, ◌≤◌, [], ℕ, List, None, false, IfOk};
ghost use Rattle.vw_course.specs.Goes.{Goes, GoesOver, IsFollowed, MovedFrom, Unmoved};
ghost use Rattle.vw_course.specs.OnTexts.{EndsSummed};
ghost use Rattle.vw_outside.specs.Memory.{seen_sink};
ghost use Rattle.vw_outside.specs.Sure.{seen_sure, sure_text};
ghost use Rattle.vw_courses.specs.Commands.{demo_course, demo_run, run_course};
ghost use Rattle.vw_courses.specs.Demo.{board_name, design_name, generated, stimulus_name};
ghost use Rattle.vw_gen.specs.Summary.{summary};
ghost use Rattle.vw_courses.specs.MayPlan.{made_here};
ghost use Rattle.vw_courses.specs.Messages.{vocabulary};

use crate::run::{run_by_one, run_by_several};
use std::alloc::{AllocError, Global};
use std::marker::Sync;
use std::sync::Wait;
use std::thread::Threads;
use vw_batches::Floor;
use vw_course::{Outside, answer_of};
use vw_courses::{Size, Unfinished};
use vw_files::{BoardFiles, PlanBy, Probes};
use vw_gen::{board, design, stimulus, summary};
use vw_outside::{
    BurstGate, MemSink, Name, Shelf, Sink, SureShelf, no_read_fault_over_a_sure_shelf, put_text,
};
use vw_prog::Fabric;

/// The name of the design.
fn design_name(alloc: Global) -> Result<Name, AllocError>
    ensures { IfOk result (λ name. name ≡ design_name) }
{
    Ok(Name::of(b"design".to_vec(alloc)?))
}

/// The name of the board.
fn board_name(alloc: Global) -> Result<Name, AllocError>
    ensures { IfOk result (λ name. name ≡ board_name) }
{
    Ok(Name::of(b"board".to_vec(alloc)?))
}

/// The name of the stimulus.
fn stimulus_name(alloc: Global) -> Result<Name, AllocError>
    ensures { IfOk result (λ name. name ≡ stimulus_name) }
{
    Ok(Name::of(b"stimulus".to_vec(alloc)?))
}

/// The generated texts under their names.
fn texts(alloc: Global, size: Size) -> Result<SureShelf, AllocError>
    ensures { IfOk result (λ shelf. (name : List ℕ)
        → sure_text shelf.files.items name ≡ generated size.cells name) }
{
    let design = (design_name(alloc)?, design(alloc, size.cells)?);
    let board = (board_name(alloc)?, board(alloc, size.cells)?);
    let stimulus = (stimulus_name(alloc)?, stimulus(alloc, size.cells)?);
    let files = vec![in alloc; design, board, stimulus]?;
    Ok(SureShelf::new(files))
}

/// Room for the trace. A line of it has at most 14 bytes and a latch for every fourth cell, and there are 302.
fn room(alloc: Global, size: Size) -> Result<MemSink, AllocError>
    ensures { IfOk result (λ trace. trace.written.items ≡ []) }
{
    let mut trace = MemSink::new(alloc, u32::MAX, Vec::new(alloc));
    trace.reserve(302 * (size.cells as u64 / 4 + 15))?;
    Ok(trace)
}

/// Writes the summary of a run over the texts. Where the run is refused, so is the demo. All else that stops it is want of
/// memory, since no read of these texts fails, and a write of the trace only where there is no room.
fn write_summary<O: Sink>(
    alloc: Global,
    size: Size,
    ran: Result<(), Unfinished>,
    trace: &MemSink,
    out: &mut O,
) -> Result<(), Unfinished>
    ensures { EndsSummed vocabulary (summary size.cells trace.now.written.items) (O.seen out.old)
        (O.seen out.new) ran result }
{
    match ran {
        Ok(()) => answer_of(put_text(summary(alloc, size.cells, trace.bytes()), out)),
        Err(Unfinished::Refused(reason)) => Err(Unfinished::Refused(reason)),
        Err(_) => Err(Unfinished::NoMemory),
    }
}

/// Runs a design on a board by a plan of its own, free latches starting at 0, and writes its trace, in this thread.
fn run_alone<S: Shelf, O: Sink>(
    alloc: Global,
    design: &Name,
    board: &Name,
    stimulus: &Name,
    outside: &mut Outside<'_, '_, S, O>,
) -> Result<(), Unfinished>
    ensures { Goes S.seen O.seen vocabulary
        (run_course [] None design.now board.now made_here stimulus.now 1 false) outside.old outside.new result }
{
    let files = BoardFiles {
        design,
        probes: Probes {
            nets: &[],
            until: false,
        },
        board,
        plan: PlanBy::Made,
    };
    run_by_one(alloc, &files, stimulus, false, outside)
}

/// Runs the texts of these names in this thread.
fn run_named_by_one(
    alloc: Global,
    design: &Name,
    board: &Name,
    stimulus: &Name,
    shelf: &mut SureShelf,
    trace: &mut MemSink,
) -> Result<(), Unfinished>
    ensures { IsFollowed vocabulary Unmoved
        (run_course [] None design.now board.now made_here stimulus.now 1 false)
        (seen_sure shelf.old.files.items) (seen_sink trace.old)
        (seen_sure shelf.new.files.items) (seen_sink trace.new) result }
{
    let mut inside = Outside { shelf, out: trace };
    run_alone(alloc, design, board, stimulus, &mut inside)
}

/// The same with the workers of a floor, on threads of its runtime.
fn run_named_by_several<R: Threads + Wait + Sync, F: Fabric, G: BurstGate>(
    alloc: Global,
    design: &Name,
    board: &Name,
    stimulus: &Name,
    floor: &mut Floor<'_, '_, '_, R, F, G>,
    shelf: &mut SureShelf,
    trace: &mut MemSink,
) -> Result<(), Unfinished>
    ensures fabric { floor.new.fabric.ghost_name ≡ floor.old.fabric.ghost_name }
    ensures goes { IsFollowed vocabulary
        (MovedFrom (F.carried floor.old.fabric.now) (F.carried floor.new.fabric.now))
        (run_course [] None design.now board.now made_here stimulus.now floor.old.workers false)
        (seen_sure shelf.old.files.items) (seen_sink trace.old)
        (seen_sure shelf.new.files.items) (seen_sink trace.new) result }
{
    let files = BoardFiles {
        design,
        probes: Probes {
            nets: &[],
            until: false,
        },
        board,
        plan: PlanBy::Made,
    };
    let mut inside = Outside { shelf, out: trace };
    run_by_several(alloc, &files, stimulus, false, floor, &mut inside)
}

/// Runs the texts of a demo in this thread.
fn run_texts_by_one(
    alloc: Global,
    shelf: &mut SureShelf,
    trace: &mut MemSink,
) -> Result<(), Unfinished>
    ensures { IsFollowed vocabulary Unmoved (demo_run 1)
        (seen_sure shelf.old.files.items) (seen_sink trace.old)
        (seen_sure shelf.new.files.items) (seen_sink trace.new) result }
{
    let design = design_name(alloc)?;
    let board = board_name(alloc)?;
    let stimulus = stimulus_name(alloc)?;
    run_named_by_one(alloc, &design, &board, &stimulus, shelf, trace)
}

/// The same with the workers of a floor, on threads of its runtime.
fn run_texts_by_several<R: Threads + Wait + Sync, F: Fabric, G: BurstGate>(
    alloc: Global,
    floor: &mut Floor<'_, '_, '_, R, F, G>,
    shelf: &mut SureShelf,
    trace: &mut MemSink,
) -> Result<(), Unfinished>
    ensures fabric { floor.new.fabric.ghost_name ≡ floor.old.fabric.ghost_name }
    ensures goes { IsFollowed vocabulary
        (MovedFrom (F.carried floor.old.fabric.now) (F.carried floor.new.fabric.now))
        (demo_run floor.old.workers) (seen_sure shelf.old.files.items) (seen_sink trace.old)
        (seen_sure shelf.new.files.items) (seen_sink trace.new) result }
{
    let design = design_name(alloc)?;
    let board = board_name(alloc)?;
    let stimulus = stimulus_name(alloc)?;
    run_named_by_several(alloc, &design, &board, &stimulus, floor, shelf, trace)
}

/// Runs a generated design of this size on a generated board, free latches starting at 0, and writes a summary of its
/// trace. One worker runs it.
pub fn demo_by_one<S: Shelf, O: Sink>(
    alloc: Global,
    size: Size,
    outside: &mut Outside<'_, '_, S, O>,
) -> Result<(), Unfinished>
    ensures { (workers : ℕ) → workers ≤ 1 → Goes S.seen O.seen vocabulary
        (demo_course size.cells workers) outside.old outside.new result }
{
    no_read_fault_over_a_sure_shelf();
    let mut shelf = texts(alloc, size)?;
    let mut trace = room(alloc, size)?;
    let ran = run_texts_by_one(alloc, &mut shelf, &mut trace);
    write_summary(alloc, size, ran, &trace, outside.out)
}

/// The same with the workers of a floor, on threads of its runtime.
pub fn demo_by_several<R: Threads + Wait + Sync, S: Shelf, F: Fabric, G: BurstGate, O: Sink>(
    alloc: Global,
    size: Size,
    floor: &mut Floor<'_, '_, '_, R, F, G>,
    outside: &mut Outside<'_, '_, S, O>,
) -> Result<(), Unfinished>
    ensures fabric { floor.new.fabric.ghost_name ≡ floor.old.fabric.ghost_name }
    ensures goes { GoesOver S.seen O.seen vocabulary
        (MovedFrom (F.carried floor.old.fabric.now) (F.carried floor.new.fabric.now))
        (demo_course size.cells floor.old.workers) outside.old outside.new result }
{
    no_read_fault_over_a_sure_shelf();
    let mut shelf = texts(alloc, size)?;
    let mut trace = room(alloc, size)?;
    let ran = run_texts_by_several(alloc, floor, &mut shelf, &mut trace);
    write_summary(alloc, size, ran, &trace, outside.out)
}

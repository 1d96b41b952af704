//! The command `run`: with one worker in this thread, and with several on threads.
ghost use Rattle.std.specs.Prelude.{◌≡◌, ◌≤◌, ℕ, length};
ghost use Rattle.vw_course.specs.Goes.{Goes, GoesOver, MovedFrom};
ghost use Rattle.vw_trace.specs.Triggers.{shown_count};
ghost use Rattle.vw_courses.specs.Commands.{board_course, netlist_trace_until, over_rows_course};
ghost use Rattle.vw_courses.specs.Messages.{vocabulary};
ghost use Rattle.vw_files.specs.Ready.{by_of};
ghost use Rattle.vw_files.specs.Watched.{shown_words};

use crate::answer::run_answer;
use std::alloc::Global;
use std::marker::Sync;
use std::sync::Wait;
use std::thread::Threads;
use vw_batches::Floor;
use vw_course::Outside;
use vw_courses::Unfinished;
use vw_files::{BoardFiles, check_rows, ready_board};
use vw_outside::{BurstGate, Name, Shelf, Sink};
use vw_plan::Checked;
use vw_prog::Fabric;
use vw_rows::Rereading;
use vw_run::{run, run_alone};

/// Checks the stimulus, runs a planned design over it as it is read again, and writes the trace. So many last outputs are
/// probes, but for a trigger behind them, with `until`. One worker runs it.
fn run_checked<S: Shelf, O: Sink>(
    alloc: Global,
    checked: Checked,
    probes: u32,
    until: bool,
    stimulus: &Name,
    unknown: bool,
    outside: &mut Outside<'_, '_, S, O>,
) -> Result<(), Unfinished>
    requires { probes ≤ shown_count until (length checked.ordered.flat.outputs) }
    ensures { (workers : ℕ) → workers ≤ 1 → Goes S.seen O.seen vocabulary
        (board_course stimulus.now (netlist_trace_until until probes unknown) until workers unknown checked.ordered
        checked.board checked.plan)
        outside.old outside.new result }
{
    let mut rows = check_rows(alloc, outside.shelf, stimulus, &checked.ordered)?;
    let mut again = Rereading {
        stimulus: &mut rows,
        shelf: outside.shelf,
    };
    let ran = run_alone(
        alloc,
        checked,
        probes,
        until,
        unknown,
        &mut again,
        outside.out,
    );
    run_answer(ran)
}

/// The same with the workers of a floor.
fn run_checked_together<R: Threads + Wait + Sync, S: Shelf, F: Fabric, G: BurstGate, O: Sink>(
    alloc: Global,
    checked: Checked,
    probes: u32,
    until: bool,
    stimulus: &Name,
    unknown: bool,
    floor: &mut Floor<'_, '_, '_, R, F, G>,
    outside: &mut Outside<'_, '_, S, O>,
) -> Result<(), Unfinished>
    requires probes { probes ≤ shown_count until (length checked.ordered.flat.outputs) }
    ensures fabric { floor.new.fabric.ghost_name ≡ floor.old.fabric.ghost_name }
    ensures goes { GoesOver S.seen O.seen vocabulary
        (MovedFrom (F.carried floor.old.fabric.now) (F.carried floor.new.fabric.now))
        (board_course stimulus.now (netlist_trace_until until probes unknown) until floor.old.workers unknown checked.ordered
        checked.board checked.plan)
        outside.old outside.new result }
{
    let mut rows = check_rows(alloc, outside.shelf, stimulus, &checked.ordered)?;
    let mut again = Rereading {
        stimulus: &mut rows,
        shelf: outside.shelf,
    };
    let ran = run(
        alloc,
        checked,
        probes,
        until,
        unknown,
        floor,
        &mut again,
        outside.out,
    );
    run_answer(ran)
}

/// Runs a design on a board over a stimulus, by the plan that is given or by one that is made, free latches starting at
/// `unknown`, and writes its trace with the nets that the probes find. Where there is a trigger, it ends there. One worker runs it.
pub fn run_by_one<S: Shelf, O: Sink>(
    alloc: Global,
    files: &BoardFiles<'_, '_, '_, '_>,
    stimulus: &Name,
    unknown: bool,
    outside: &mut Outside<'_, '_, S, O>,
) -> Result<(), Unfinished>
    ensures { (workers : ℕ) → workers ≤ 1 → Goes S.seen O.seen vocabulary
        (over_rows_course files.now.probes.nets.now files.now.design.now files.now.board.now
        (by_of files.now.plan) stimulus.now (netlist_trace_until files.now.probes.until
        (length (shown_words files.now.probes.until files.now.probes.nets.now)) unknown)
        files.now.probes.until workers unknown)
        outside.old outside.new result }
{
    let checked = ready_board(alloc, files, outside.shelf)?;
    let shown = files.probes.count();
    let until = files.probes.until;
    run_checked(alloc, checked, shown, until, stimulus, unknown, outside)
}

/// The same with the workers of a floor, on threads of its runtime.
pub fn run_by_several<R: Threads + Wait + Sync, S: Shelf, F: Fabric, G: BurstGate, O: Sink>(
    alloc: Global,
    files: &BoardFiles<'_, '_, '_, '_>,
    stimulus: &Name,
    unknown: bool,
    floor: &mut Floor<'_, '_, '_, R, F, G>,
    outside: &mut Outside<'_, '_, S, O>,
) -> Result<(), Unfinished>
    ensures fabric { floor.new.fabric.ghost_name ≡ floor.old.fabric.ghost_name }
    ensures goes { GoesOver S.seen O.seen vocabulary
        (MovedFrom (F.carried floor.old.fabric.now) (F.carried floor.new.fabric.now))
        (over_rows_course files.now.probes.nets.now files.now.design.now files.now.board.now
        (by_of files.now.plan) stimulus.now (netlist_trace_until files.now.probes.until
        (length (shown_words files.now.probes.until files.now.probes.nets.now)) unknown)
        files.now.probes.until floor.old.workers unknown)
        outside.old outside.new result }
{
    let checked = ready_board(alloc, files, outside.shelf)?;
    let shown = files.probes.count();
    let until = files.probes.until;
    run_checked_together(
        alloc, checked, shown, until, stimulus, unknown, floor, outside,
    )
}

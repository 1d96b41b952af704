//! The command `save`.
ghost use Rattle.std.specs.Prelude.{◌≡◌, option_map};
ghost use Rattle.vw_net.specs.Cells.{start_values};
ghost use Rattle.vw_plan.specs.PlannedBoard.{planned_board};
ghost use Rattle.vw_trace.specs.Streamed.{Streams};
ghost use Rattle.vw_batches.specs.Traffic.{HaveCarried};
ghost use Rattle.vw_course.specs.Goes.{GoesOver, MovedFrom};
ghost use Rattle.vw_trace.specs.Triggers.{worked};
ghost use Rattle.vw_courses.specs.Commands.{board_course, netlist_counted, netlist_state, over_rows_course, texts_kept};
ghost use Rattle.vw_courses.specs.Messages.{vocabulary};
ghost use Rattle.vw_files.specs.Ready.{by_of};

use crate::answer::run_answer;
use std::alloc::Global;
use std::marker::Sync;
use std::sync::Wait;
use std::thread::Threads;
use vw_batches::Floor;
use vw_course::Outside;
use vw_courses::{Interval, Unfinished};
use vw_files::{BoardFiles, check_rows, ready_board};
use vw_outside::{BurstGate, Name, Shelf, Sink};
use vw_plan::Checked;
use vw_prog::Fabric;
use vw_resume::save_every;
use vw_rows::Rereading;
use vw_trace::RunFault;

/// Runs a planned design over all rows that a stimulus still gives, with `until` up to its trigger, and writes the state after its
/// last clock, and, where an
/// interval is given, the states behind each so many clocks.
fn write_states<R: Threads + Wait + Sync, S: Shelf, F: Fabric, G: BurstGate, O: Sink>(
    alloc: Global,
    checked: Checked,
    until: bool,
    unknown: bool,
    every: Option<Interval>,
    floor: &mut Floor<'_, '_, '_, R, F, G>,
    rows: &mut Rereading<'_, '_, S>,
    out: &mut O,
) -> Result<(), RunFault>
    requires { rows.old.stimulus.now.width ≡ checked.ordered.flat.inputs }
    ensures shelf { rows.new.shelf.ghost_name ≡ rows.old.shelf.ghost_name }
    ensures fabric { floor.new.fabric.ghost_name ≡ floor.old.fabric.ghost_name }
    ensures streams { let planned = planned_board checked.ordered checked.board checked.plan in
        Streams (netlist_counted until unknown
        (texts_kept (option_map (λ interval. interval.clocks) every) (netlist_state unknown)) checked.ordered)
        (λ these. let start = start_values unknown checked.ordered.flat.cells in
        HaveCarried floor.old.workers planned 0 start
        (F.carried floor.old.fabric.now) (F.carried floor.new.fabric.now)
        (worked until checked.ordered.flat start these))
        rows.old rows.new (O.seen out.old) (O.seen out.new) result }
{
    match every {
        Some(interval) => {
            save_every(
                alloc,
                checked,
                until,
                unknown,
                interval.clocks,
                floor,
                rows,
                out,
            )
        }
        None => vw_resume::save(alloc, checked, until, unknown, floor, rows, out),
    }
}

/// Checks the stimulus, runs a planned design over it as it is read again, and writes the states. The workers of the floor run it.
fn save_checked<R: Threads + Wait + Sync, S: Shelf, F: Fabric, G: BurstGate, O: Sink>(
    alloc: Global,
    checked: Checked,
    until: bool,
    stimulus: &Name,
    unknown: bool,
    every: Option<Interval>,
    floor: &mut Floor<'_, '_, '_, R, F, G>,
    outside: &mut Outside<'_, '_, S, O>,
) -> Result<(), Unfinished>
    ensures fabric { floor.new.fabric.ghost_name ≡ floor.old.fabric.ghost_name }
    ensures goes { GoesOver S.seen O.seen vocabulary
        (MovedFrom (F.carried floor.old.fabric.now) (F.carried floor.new.fabric.now))
        (board_course stimulus.now (netlist_counted until unknown
        (texts_kept (option_map (λ interval. interval.clocks) every) (netlist_state unknown)))
        until floor.old.workers unknown checked.ordered
        checked.board checked.plan)
        outside.old outside.new result }
{
    let mut rows = check_rows(alloc, outside.shelf, stimulus, &checked.ordered)?;
    let mut again = Rereading {
        stimulus: &mut rows,
        shelf: outside.shelf,
    };
    let saved = write_states(
        alloc,
        checked,
        until,
        unknown,
        every,
        floor,
        &mut again,
        outside.out,
    );
    run_answer(saved)
}

/// Runs a design on a board over a stimulus, by the plan that is given or by one that is made, free latches starting at
/// `unknown`, and writes the state that it comes to, and, where an interval is given, the states behind each so many clocks.
pub fn save<R: Threads + Wait + Sync, S: Shelf, F: Fabric, G: BurstGate, O: Sink>(
    alloc: Global,
    files: &BoardFiles<'_, '_, '_, '_>,
    stimulus: &Name,
    unknown: bool,
    every: Option<Interval>,
    floor: &mut Floor<'_, '_, '_, R, F, G>,
    outside: &mut Outside<'_, '_, S, O>,
) -> Result<(), Unfinished>
    ensures fabric { floor.new.fabric.ghost_name ≡ floor.old.fabric.ghost_name }
    ensures goes { GoesOver S.seen O.seen vocabulary
        (MovedFrom (F.carried floor.old.fabric.now) (F.carried floor.new.fabric.now))
        (over_rows_course files.now.probes.nets.now files.now.design.now files.now.board.now
        (by_of files.now.plan) stimulus.now (netlist_counted files.now.probes.until unknown
        (texts_kept (option_map (λ interval. interval.clocks) every) (netlist_state unknown)))
        files.now.probes.until floor.old.workers unknown)
        outside.old outside.new result }
{
    let checked = ready_board(alloc, files, outside.shelf)?;
    save_checked(
        alloc,
        checked,
        files.probes.until,
        stimulus,
        unknown,
        every,
        floor,
        outside,
    )
}

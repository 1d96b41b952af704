//! The command `resume`.
ghost use Rattle.std.specs.Prelude.{◌≡◌, ◌≤◌, length};
ghost use Rattle.vw_course.specs.Goes.{GoesOver, MovedFrom};
ghost use Rattle.vw_course.specs.Stages.{EndsJudging};
ghost use Rattle.vw_net.specs.Cells.{latch_count};
ghost use Rattle.vw_plan.specs.PlannedBoard.{planned_board};
ghost use Rattle.vw_trace.specs.Triggers.{shown_count};
ghost use Rattle.vw_rows.specs.declared.limits.TheConstants.{MOST_CLOCKS};
ghost use Rattle.vw_courses.specs.Commands.{ready_course, resume_rest, state_course};
ghost use Rattle.vw_courses.specs.Messages.{vocabulary};
ghost use Rattle.vw_files.specs.Ready.{by_of};
ghost use Rattle.vw_files.specs.Watched.{shown_words};
ghost use Rattle.vw_top.specs.Stages.{EndsClocks};

use crate::answer::run_answer;
use crate::latches::latch_count;
use std::alloc::Global;
use std::marker::Sync;
use std::sync::Wait;
use std::thread::Threads;
use vw_batches::Floor;
use vw_course::Outside;
use vw_courses::{Reason, Unfinished};
use vw_files::{BoardFiles, check_rows, read_state, ready_board};
use vw_outside::{BurstGate, Name, Shelf, Sink};
use vw_plan::Checked;
use vw_prog::Fabric;
use vw_resume::{State, StateFault, run_watched_from};
use vw_rows::{MOST_CLOCKS, Rereading};

/// Whether so many clocks can follow those before a state: a trace numbers no more than 4,294,967,295.
fn clocks_fit(before: u64, clocks: u64) -> Result<(), Unfinished>
    requires before { before ≤ MOST_CLOCKS }
    requires clocks { clocks ≤ MOST_CLOCKS }
    ensures { EndsClocks before clocks result }
{
    let all = before + clocks;
    if all > MOST_CLOCKS {
        return Err(Unfinished::Refused(Reason::State(StateFault::TooManyClocks(all))));
    }
    Ok(())
}

/// Checks the stimulus, and that its clocks can follow those of the state. Then it runs a planned design over it from the
/// state on, as it is read again, and writes the trace. So many last outputs are probes, but for a trigger behind them. The workers
/// of the floor run it.
fn resume_state<R: Threads + Wait + Sync, S: Shelf, F: Fabric, G: BurstGate, O: Sink>(
    alloc: Global,
    checked: Checked,
    probes: u32,
    until: bool,
    state: State,
    stimulus: &Name,
    floor: &mut Floor<'_, '_, '_, R, F, G>,
    outside: &mut Outside<'_, '_, S, O>,
) -> Result<(), Unfinished>
    requires probes { probes ≤ shown_count until (length checked.ordered.flat.outputs) }
    requires few { state.clock ≤ MOST_CLOCKS }
    requires latches { length state.latches ≡ latch_count checked.ordered.flat.cells }
    ensures fabric { floor.new.fabric.ghost_name ≡ floor.old.fabric.ghost_name }
    ensures goes { GoesOver S.seen O.seen vocabulary
        (MovedFrom (F.carried floor.old.fabric.now) (F.carried floor.new.fabric.now))
        (state_course until probes stimulus.now floor.old.workers
        (planned_board checked.ordered checked.board checked.plan) state)
        outside.old outside.new result }
{
    let mut rows = check_rows(alloc, outside.shelf, stimulus, &checked.ordered)?;
    clocks_fit(state.clock, rows.clocks())?;
    let mut again = Rereading {
        stimulus: &mut rows,
        shelf: outside.shelf,
    };
    let ran = run_watched_from(
        alloc,
        checked,
        probes,
        until,
        state,
        floor,
        &mut again,
        outside.out,
    );
    run_answer(ran)
}

/// Reads the state of a planned design, and goes on from it.
fn resume_checked<R: Threads + Wait + Sync, S: Shelf, F: Fabric, G: BurstGate, O: Sink>(
    alloc: Global,
    checked: Checked,
    probes: u32,
    until: bool,
    state: &Name,
    stimulus: &Name,
    floor: &mut Floor<'_, '_, '_, R, F, G>,
    outside: &mut Outside<'_, '_, S, O>,
) -> Result<(), Unfinished>
    requires probes { probes ≤ shown_count until (length checked.ordered.flat.outputs) }
    ensures fabric { floor.new.fabric.ghost_name ≡ floor.old.fabric.ghost_name }
    ensures goes { GoesOver S.seen O.seen vocabulary
        (MovedFrom (F.carried floor.old.fabric.now) (F.carried floor.new.fabric.now))
        (resume_rest until probes state.now stimulus.now floor.old.workers checked.ordered checked.board checked.plan)
        outside.old outside.new result }
{
    let latches = latch_count(checked.ordered().flat().cells());
    let state = read_state(alloc, outside.shelf, state, latches)?;
    resume_state(
        alloc, checked, probes, until, state, stimulus, floor, outside,
    )
}

/// Runs a design on a board over a stimulus from a state on, by the plan that is given or by one that is made, and writes
/// its trace with the nets that the probes find, whose clocks are numbered from the state's clock on. Where there is a trigger, it
/// ends there.
pub fn resume<R: Threads + Wait + Sync, S: Shelf, F: Fabric, G: BurstGate, O: Sink>(
    alloc: Global,
    files: &BoardFiles<'_, '_, '_, '_>,
    state: &Name,
    stimulus: &Name,
    floor: &mut Floor<'_, '_, '_, R, F, G>,
    outside: &mut Outside<'_, '_, S, O>,
) -> Result<(), Unfinished>
    ensures fabric { floor.new.fabric.ghost_name ≡ floor.old.fabric.ghost_name }
    ensures goes { GoesOver S.seen O.seen vocabulary
        (MovedFrom (F.carried floor.old.fabric.now) (F.carried floor.new.fabric.now))
        (ready_course files.now.probes.nets.now files.now.design.now files.now.board.now
        (by_of files.now.plan)
        (resume_rest files.now.probes.until (length (shown_words files.now.probes.until files.now.probes.nets.now))
        state.now stimulus.now floor.old.workers))
        outside.old outside.new result }
{
    let checked = ready_board(alloc, files, outside.shelf)?;
    let shown = files.probes.count();
    let until = files.probes.until;
    resume_checked(
        alloc, checked, shown, until, state, stimulus, floor, outside,
    )
}

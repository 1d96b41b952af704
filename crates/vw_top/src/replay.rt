//! The command `sim` from a state on.
ghost use Rattle.std.specs.Prelude.{◌≡◌, ◌≤◌, length};
ghost use Rattle.vw_course.specs.Goes.{Goes};
ghost use Rattle.vw_net.specs.Cells.{latch_count};
ghost use Rattle.vw_trace.specs.Triggers.{shown_count};
ghost use Rattle.vw_courses.specs.Commands.{netlist_replay_until, reached_course, replay_course, replay_rest, replayed_trace_of_until};
ghost use Rattle.vw_courses.specs.Messages.{vocabulary};
ghost use Rattle.vw_top.specs.Stages.{EndsReach};

use crate::answer::run_answer;
use crate::latches::latch_count;
use std::alloc::Global;
use vw_course::Outside;
use vw_courses::{Reason, Unfinished};
use vw_files::{Probes, check_rows, read_design, read_given_state};
use vw_net::Ordered;
use vw_outside::{Name, Shelf, Sink};
use vw_resume::{State, StateFault, replay_trace};
use vw_rows::Rereading;

/// Whether a stimulus of so many clocks reaches the clock of a state.
pub(crate) fn clocks_reach(clock: u64, clocks: u64) -> Result<(), Unfinished>
    ensures { EndsReach clock clocks result }
{
    if clocks < clock {
        return Err(Unfinished::Refused(Reason::State(StateFault::TooFewClocks(clocks, clock))));
    }
    Ok(())
}

/// Checks the stimulus, and that it reaches the clock of a state. Then it runs a netlist from the state on over the rows from that
/// clock on, as the stimulus is read again, and writes the trace. So many last outputs are probes, but for a trigger behind them.
fn replay_rows<S: Shelf, O: Sink>(
    alloc: Global,
    ordered: &Ordered,
    probes: u32,
    until: bool,
    state: State,
    stimulus: &Name,
    outside: &mut Outside<'_, '_, S, O>,
) -> Result<(), Unfinished>
    requires probes { probes ≤ shown_count until (length ordered.now.flat.outputs) }
    requires latches { length state.latches ≡ latch_count ordered.now.flat.cells }
    ensures { Goes S.seen O.seen vocabulary
        (reached_course stimulus.now ordered.now.flat.inputs (netlist_replay_until until probes ordered.now.flat) state)
        outside.old outside.new result }
{
    let mut rows = check_rows(alloc, outside.shelf, stimulus, ordered)?;
    clocks_reach(state.clock, rows.clocks())?;
    let mut again = Rereading {
        stimulus: &mut rows,
        shelf: outside.shelf,
    };
    run_answer(replay_trace(
        alloc,
        ordered,
        probes,
        until,
        state,
        &mut again,
        outside.out,
    ))
}

/// Reads the state of a netlist, and goes on from it.
fn replay_netlist<S: Shelf, O: Sink>(
    alloc: Global,
    ordered: &Ordered,
    probes: u32,
    until: bool,
    state: &[u8],
    stimulus: &Name,
    outside: &mut Outside<'_, '_, S, O>,
) -> Result<(), Unfinished>
    requires { probes ≤ shown_count until (length ordered.now.flat.outputs) }
    ensures { let flat = ordered.now.flat in Goes S.seen O.seen vocabulary
        (replay_rest (latch_count flat.cells) flat.inputs state.now stimulus.now (netlist_replay_until until probes flat))
        outside.old outside.new result }
{
    let latches = latch_count(ordered.flat().cells());
    let state = read_given_state(alloc, outside.shelf, state, latches)?;
    replay_rows(alloc, ordered, probes, until, state, stimulus, outside)
}

/// Runs a design from a state on over the rows of a stimulus from the state's clock on, and writes its trace with the nets that
/// the probes find, whose clocks are numbered from the state's on. Where there is a trigger, it ends there.
pub fn replay<S: Shelf, O: Sink>(
    alloc: Global,
    design: &Name,
    probes: Probes<'_>,
    state: &[u8],
    stimulus: &Name,
    outside: &mut Outside<'_, '_, S, O>,
) -> Result<(), Unfinished>
    ensures { Goes S.seen O.seen vocabulary
        (replay_course probes.entry.nets.now design.now state.now stimulus.now (replayed_trace_of_until probes.entry.until))
        outside.old outside.new result }
{
    let ordered = read_design(alloc, outside.shelf, design, probes)?;
    let shown = probes.count();
    replay_netlist(
        alloc,
        &ordered,
        shown,
        probes.until,
        state,
        stimulus,
        outside,
    )
}

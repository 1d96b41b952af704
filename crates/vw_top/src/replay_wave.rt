//! The command `wave` from a state on.
ghost use Rattle.std.specs.Prelude.{◌≡◌, ◌+◌, ℕ, List, length};
ghost use Rattle.vw_course.specs.Goes.{Goes};
ghost use Rattle.vw_front.specs.NamedNetlists.{IsNamedNetlistOf};
ghost use Rattle.vw_net.specs.Cells.{latch_count};
ghost use Rattle.vw_courses.specs.Commands.{design_replay, netlist_replayed_wave_until, reached_course, replay_course, replay_rest, replayed_wave_of_until};
ghost use Rattle.vw_courses.specs.Messages.{vocabulary};
ghost use Rattle.vw_files.specs.Watched.{shown_words};
ghost use Rattle.vw_trace.specs.Triggers.{shown_count};

use crate::answer::run_answer;
use crate::latches::latch_count;
use crate::replay::clocks_reach;
use std::alloc::Global;
use vw_course::Outside;
use vw_courses::Unfinished;
use vw_files::{Probes, check_rows, read_given_state, read_named_design};
use vw_front::NamedNetlist;
use vw_net::Ordered;
use vw_outside::{Name, Shelf, Sink};
use vw_resume::State;
use vw_rows::Rereading;

/// Checks the stimulus, and that it reaches the clock of a state. Then it runs a netlist from the state on over the rows from that
/// clock on, as the stimulus is read again, and writes the wave of the signals with these names: the outputs, and behind them the
/// latches.
fn wave_rows<S: Shelf, O: Sink>(
    alloc: Global,
    ordered: &Ordered,
    names: &[Name],
    until: bool,
    state: State,
    stimulus: &Name,
    outside: &mut Outside<'_, '_, S, O>,
) -> Result<(), Unfinished>
    requires names { length names.now ≡ shown_count until (length ordered.now.flat.outputs)
        + latch_count ordered.now.flat.cells }
    requires latches { length state.latches ≡ latch_count ordered.now.flat.cells }
    ensures { Goes S.seen O.seen vocabulary
        (reached_course stimulus.now ordered.now.flat.inputs (netlist_replayed_wave_until until names.now ordered.now.flat) state)
        outside.old outside.new result }
{
    let mut rows = check_rows(alloc, outside.shelf, stimulus, ordered)?;
    clocks_reach(state.clock, rows.clocks())?;
    let mut again = Rereading {
        stimulus: &mut rows,
        shelf: outside.shelf,
    };
    run_answer(vw_resume::replay_wave(alloc, ordered, names, until, state, &mut again, outside.out))
}

/// Reads the state of a netlist, and goes on from it.
fn wave_netlist<S: Shelf, O: Sink>(
    alloc: Global,
    ordered: &Ordered,
    names: &[Name],
    until: bool,
    state: &[u8],
    stimulus: &Name,
    outside: &mut Outside<'_, '_, S, O>,
) -> Result<(), Unfinished>
    requires { length names.now ≡ shown_count until (length ordered.now.flat.outputs)
        + latch_count ordered.now.flat.cells }
    ensures { let flat = ordered.now.flat in Goes S.seen O.seen vocabulary
        (replay_rest (latch_count flat.cells) flat.inputs state.now stimulus.now (netlist_replayed_wave_until until names.now flat))
        outside.old outside.new result }
{
    let latches = latch_count(ordered.flat().cells());
    let state = read_given_state(alloc, outside.shelf, state, latches)?;
    wave_rows(alloc, ordered, names, until, state, stimulus, outside)
}

/// The same of the outputs of a design, its probes, and the nets that its latches drive.
fn wave_signals<S: Shelf, O: Sink>(
    alloc: Global,
    named: &NamedNetlist,
    probes: Probes<'_>,
    state: &[u8],
    stimulus: &Name,
    outside: &mut Outside<'_, '_, S, O>,
) -> Result<(), Unfinished>
    requires { (text : List ℕ) × IsNamedNetlistOf probes.nets.now text named.now }
    ensures { (text : List ℕ) (is : IsNamedNetlistOf probes.entry.nets.now text named.now)
        → Goes S.seen O.seen vocabulary
        (design_replay state.now stimulus.now (replayed_wave_of_until probes.entry.until (shown_words probes.entry.until probes.entry.nets.now)) is.watched)
        outside.old outside.new result }
{
    let names = named.signals(alloc, probes.shown())?;
    wave_netlist(
        alloc,
        named.ordered(),
        &names,
        probes.until,
        state,
        stimulus,
        outside,
    )
}

/// Runs a design from a state on over the rows of a stimulus from the state's clock on, and writes its wave with the nets that
/// the probes find, whose clocks are numbered from the state's on. Where there is a trigger, it ends there.
pub fn replay_wave<S: Shelf, O: Sink>(
    alloc: Global,
    design: &Name,
    probes: Probes<'_>,
    state: &[u8],
    stimulus: &Name,
    outside: &mut Outside<'_, '_, S, O>,
) -> Result<(), Unfinished>
    ensures { Goes S.seen O.seen vocabulary
        (replay_course probes.entry.nets.now design.now state.now stimulus.now
        (replayed_wave_of_until probes.entry.until (shown_words probes.entry.until probes.entry.nets.now)))
        outside.old outside.new result }
{
    let named = read_named_design(alloc, outside.shelf, design, probes)?;
    wave_signals(alloc, &named, probes, state, stimulus, outside)
}

//! Designs that go on from a state over the rows behind its clock.
ghost use Rattle.std.specs.Prelude.{◌≡◌, ◌≢◌, ◌≤◌, ◌+◌, ℕ, List, false, length, IfErr, IsErrOf, OnOk, Err};
ghost use Rattle.vw_net.specs.Cells.{latch_count};
ghost use Rattle.vw_outside.specs.Told.{held};
ghost use Rattle.vw_outside.specs.Reads.{CountsFault};
ghost use Rattle.vw_rows.specs.Rereadings.{SameShelf, seen_shelf};
ghost use Rattle.vw_rows.specs.Standing.{GaveMore};
ghost use Rattle.vw_rows.specs.Stimulus.{is_text_fault};
ghost use Rattle.vw_trace.specs.FlatTrace.{trace_until};
ghost use Rattle.vw_trace.specs.Streamed.{Streams, clocks_left};
ghost use Rattle.vw_trace.specs.Triggers.{shown_count};
ghost use Rattle.vw_wave.specs.FlatWave.{wave_until};
ghost use Rattle.vw_resume.specs.Resumed.{replayed_trace_until, replayed_wave_until};

use crate::state::State;
use std::alloc::Global;
use vw_net::Ordered;
use vw_outside::{Name, Shelf, Sink};
use vw_rows::{Rereading, StimFault};
use vw_trace::{BATCH, RunFault, Simulation, merged_before, write_trace_by};
use vw_wave::write_wave_by;

/// Passes over the next rows of a stimulus, so many of them: they are read again, and dropped. Memory is taken for 256 of them
/// at a time.
fn pass_over<S: Shelf>(
    alloc: Global,
    rows: &mut Rereading<'_, '_, S>,
    count: u64,
) -> Result<(), StimFault>
    requires { count ≤ clocks_left rows.old.stimulus.now }
    ensures shelf { SameShelf rows.old rows.new }
    ensures gave { OnOk result (GaveMore count rows.old.stimulus.now rows.new.stimulus.now) }
    ensures sure { (text : List ℕ)
        → (seen_shelf rows.old).told rows.old.stimulus.now.name ≡ held text
        → IfErr result (λ fault. is_text_fault fault ≡ false) }
    ensures fault { IsErrOf result StimFault.ReadFault
        → CountsFault rows.old.stimulus.now.name (seen_shelf rows.old) (seen_shelf rows.new) }
    ensures kept { result ≢ Err StimFault.ReadFault → seen_shelf rows.new ≡ seen_shelf rows.old }
{
    let mut left = count;
    while left > 0 {
        let most = left.min(u64::from(BATCH)) as u32;
        let passed = rows.next_batch(alloc, most)?;
        left -= passed.len() as u64;
    }
    Ok(())
}

/// Simulates a netlist from a state on over all rows that a stimulus still gives, and appends its trace.
fn simulate_from<S: Shelf, O: Sink>(
    alloc: Global,
    ordered: &Ordered,
    probes: u32,
    until: bool,
    state: State,
    rows: &mut Rereading<'_, '_, S>,
    out: &mut O,
) -> Result<(), RunFault>
    requires columns { rows.old.stimulus.now.width ≡ ordered.now.flat.inputs }
    requires probes { probes ≤ shown_count until (length ordered.now.flat.outputs) }
    requires latches { length state.latches ≡ latch_count ordered.now.flat.cells }
    requires clocks { state.clock ≡ rows.old.stimulus.now.done }
    ensures { Streams (trace_until until probes state.clock state.latches ordered.now.flat) (λ _. Unit {0})
        rows.old rows.new (O.seen out.old) (O.seen out.new) result }
{
    let State { clock, latches } = state;
    let mut simulation = Simulation::make(alloc, ordered, latches)?;
    simulation.done = clock;
    write_trace_by(alloc, &mut simulation, probes, until, rows, out)
}

/// Simulates a netlist from a state on over the rows of a stimulus from the state's clock on, and appends its trace. The rows
/// before that clock are read again and passed over. The last `probes` outputs of the netlist are probes. With `until` a trigger
/// stands behind them: the trace ends behind the first clock in which it is 1. Where there are many clocks, a netlist with fewer tables is run in its place.
///
/// The stimulus has at least as many clocks as the state, and none of its rows was given. Memory is taken for a batch of 256
/// rows at a time. Where a read or a write fails or memory runs out, a front of the trace was appended, and before the state's
/// clock nothing. Where nothing is told of the text of the stimulus, it may have changed since it was checked: then it may be
/// found at fault, or the trace is that of other rows with the same width, as many as were counted.
pub fn replay_trace<S: Shelf, O: Sink>(
    alloc: Global,
    ordered: &Ordered,
    probes: u32,
    until: bool,
    state: State,
    rows: &mut Rereading<'_, '_, S>,
    out: &mut O,
) -> Result<(), RunFault>
    requires columns { rows.old.stimulus.now.width ≡ ordered.now.flat.inputs }
    requires probes { probes ≤ shown_count until (length ordered.now.flat.outputs) }
    requires latches { length state.latches ≡ latch_count ordered.now.flat.cells }
    requires start { rows.old.stimulus.now.done ≡ 0 }
    requires clocks { state.clock ≤ rows.old.stimulus.now.clocks }
    ensures shelf { rows.new.shelf.ghost_name ≡ rows.old.shelf.ghost_name }
    ensures streams { Streams (replayed_trace_until until probes ordered.now.flat state.clock state.latches) (λ _. Unit {0})
        rows.old rows.new (O.seen out.old) (O.seen out.new) result }
{
    pass_over(alloc, rows, state.clock)?;
    match merged_before(alloc, ordered, rows) {
        Some(merged) => simulate_from(alloc, &merged, probes, until, state, rows, out),
        None => simulate_from(alloc, ordered, probes, until, state, rows, out),
    }
}

/// Simulates a netlist from a state on over all rows that a stimulus still gives, and appends its wave.
fn wave_on<S: Shelf, O: Sink>(
    alloc: Global,
    ordered: &Ordered,
    names: &[Name],
    until: bool,
    state: State,
    rows: &mut Rereading<'_, '_, S>,
    out: &mut O,
) -> Result<(), RunFault>
    requires columns { rows.old.stimulus.now.width ≡ ordered.now.flat.inputs }
    requires names { length names.now ≡ shown_count until (length ordered.now.flat.outputs)
        + latch_count ordered.now.flat.cells }
    requires latches { length state.latches ≡ latch_count ordered.now.flat.cells }
    requires clocks { state.clock ≡ rows.old.stimulus.now.done }
    ensures { Streams (wave_until until names.now state.clock state.latches ordered.now.flat) (λ _. Unit {0})
        rows.old rows.new (O.seen out.old) (O.seen out.new) result }
{
    let State { clock, latches } = state;
    let mut simulation = Simulation::make(alloc, ordered, latches)?;
    simulation.done = clock;
    write_wave_by(alloc, &mut simulation, names, until, rows, out)
}

/// Simulates a netlist from a state on over the rows of a stimulus from the state's clock on, and appends its wave, whose
/// first clock is the state's. Its signals are the outputs, but for a trigger, with `until`, and behind them the latches, in the order of the cells; `names` are
/// their printed nets. The rows before that clock are read again and passed over. Where there are many clocks, a netlist with
/// fewer tables is run in its place.
///
/// The stimulus has at least as many clocks as the state, and none of its rows was given. Memory is taken for a batch of 256
/// rows at a time. Where a read or a write fails or memory runs out, a front of the wave was appended, and before the state's
/// clock nothing. Where nothing is told of the text of the stimulus, it may have changed since it was checked: then it may be
/// found at fault, or the wave is that of other rows with the same width, as many as were counted.
pub fn replay_wave<S: Shelf, O: Sink>(
    alloc: Global,
    ordered: &Ordered,
    names: &[Name],
    until: bool,
    state: State,
    rows: &mut Rereading<'_, '_, S>,
    out: &mut O,
) -> Result<(), RunFault>
    requires columns { rows.old.stimulus.now.width ≡ ordered.now.flat.inputs }
    requires names { length names.now ≡ shown_count until (length ordered.now.flat.outputs)
        + latch_count ordered.now.flat.cells }
    requires latches { length state.latches ≡ latch_count ordered.now.flat.cells }
    requires start { rows.old.stimulus.now.done ≡ 0 }
    requires clocks { state.clock ≤ rows.old.stimulus.now.clocks }
    ensures shelf { rows.new.shelf.ghost_name ≡ rows.old.shelf.ghost_name }
    ensures streams { Streams (replayed_wave_until until names.now ordered.now.flat state.clock state.latches) (λ _. Unit {0})
        rows.old rows.new (O.seen out.old) (O.seen out.new) result }
{
    pass_over(alloc, rows, state.clock)?;
    match merged_before(alloc, ordered, rows) {
        Some(merged) => wave_on(alloc, &merged, names, until, state, rows, out),
        None => wave_on(alloc, ordered, names, until, state, rows, out),
    }
}

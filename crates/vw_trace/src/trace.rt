//! Works out the clocks of a netlist, and writes its trace piece by piece.
ghost use Rattle.std.specs.Prelude.{◌≡◌, ◌≤◌, ◌-◌, length};
ghost use Rattle.vw_net.specs.Cells.{latch_count};
ghost use Rattle.vw_outside.specs.Writes.{WritesOut};
ghost use Rattle.vw_rows.specs.Trace.{head_text};
ghost use Rattle.vw_trace.specs.FlatTrace.{flat_trace_until, trace_until};
ghost use Rattle.vw_trace.specs.Streamed.{DoneBy, Feeds, Streams};
ghost use Rattle.vw_trace.specs.Triggers.{shown_count};

use crate::engine::Engine;
use crate::fault::RunFault;
use crate::merged::merged_before;
use crate::record::record_run;
use crate::simulation::Simulation;
use crate::trace_recorder::TraceRecorder;
use std::alloc::Global;
use vw_net::{Bits, Flat, Ordered};
use vw_outside::{Shelf, Sink, Unwritten, put_text};
use vw_rows::{Rereading, trace_head};

/// How many of so many outputs are shown: with `until` the last one is a trigger.
pub fn shown_count(until: bool, outputs: usize) -> usize
    ensures { result ≡ shown_count until outputs }
{
    if until {
        outputs.saturating_sub(1)
    } else {
        outputs
    }
}

/// Writes the first line of a trace, whose latches have these values at first. The last `probes` outputs of the netlist are
/// probes, but for a trigger behind them, with `until`. It takes memory for the line. Where a write fails or there is no memory, a front of the line was appended.
pub fn write_head<O: Sink>(
    alloc: Global,
    flat: &Flat,
    probes: u32,
    until: bool,
    state: &Bits,
    out: &mut O,
) -> Result<(), Unwritten>
    requires latches { length state.now ≡ latch_count flat.now.cells }
    requires probes { probes ≤ shown_count until (length flat.now.outputs) }
    ensures { WritesOut
        (head_text (shown_count until (length flat.now.outputs) - probes) probes (latch_count flat.now.cells))
        (O.seen out.old) (O.seen out.new) result }
{
    let outputs = shown_count(until, flat.outputs().len()) as u32 - probes;
    let head = trace_head(alloc, outputs, probes, state.len() as u32);
    put_text(head, out)
}

/// Has an engine work out the clocks of all rows that a stimulus still gives, from where it stands, and appends the trace of
/// its netlist. The last `probes` outputs of the netlist are probes. With `until` a trigger stands behind them, which isn't shown:
/// the trace ends behind the first clock in which it is 1, and no batch behind it is read. The stimulus is read again in batches of 256 clocks, and
/// memory is taken for one batch at a time: all but that of its lines before its first clock. Where a read or a write fails
/// or memory runs out, a front of the trace was appended. Where nothing is told of the text of the stimulus, it may have
/// changed since it was checked: then it may be found at fault, or the trace is that of other rows with the same width, as
/// many as were counted. After a success the engine has worked out each clock once, up to the end of the
/// batch in which the trace ends.
pub fn write_trace_by<E: Engine, S: Shelf, O: Sink>(
    alloc: Global,
    engine: &mut E,
    probes: u32,
    until: bool,
    rows: &mut Rereading<'_, '_, S>,
    out: &mut O,
) -> Result<(), RunFault>
    requires feeds { Feeds (E.seen engine.old) rows.old.stimulus.now }
    requires probes { probes ≤ shown_count until (length (E.seen engine.old).netlist.outputs) }
    ensures { let seen = E.seen engine.old in
        Streams (trace_until until probes seen.clock seen.state seen.netlist)
        (DoneBy until (λ _. Unit {0}) seen (E.seen engine.new) result)
        rows.old rows.new (O.seen out.old) (O.seen out.new) result }
{
    write_head(alloc, engine.flat(), probes, until, engine.state(), out)?;
    let outputs = shown_count(until, engine.flat().outputs().len());
    let mut recorder = TraceRecorder::make(engine.flat(), outputs, engine.clock(), engine.state());
    record_run(alloc, engine, rows, until, &mut recorder, out)
}

/// Simulates a netlist over all rows that a stimulus still gives, and appends its trace.
fn simulate<S: Shelf, O: Sink>(
    alloc: Global,
    ordered: &Ordered,
    probes: u32,
    until: bool,
    unknown: bool,
    rows: &mut Rereading<'_, '_, S>,
    out: &mut O,
) -> Result<(), RunFault>
    requires columns { rows.old.stimulus.now.width ≡ ordered.now.flat.inputs }
    requires probes { probes ≤ shown_count until (length ordered.now.flat.outputs) }
    ensures shelf { rows.new.shelf.ghost_name ≡ rows.old.shelf.ghost_name }
    ensures streams { Streams (flat_trace_until until probes unknown ordered.now.flat) (λ _. Unit {0})
        rows.old rows.new (O.seen out.old) (O.seen out.new) result }
{
    let start = ordered.flat().start(alloc, unknown)?;
    let mut simulation = Simulation::make(alloc, ordered, start)?;
    write_trace_by(alloc, &mut simulation, probes, until, rows, out)
}

/// Runs a netlist over all rows that a stimulus still gives, and appends its trace. The last `probes` outputs of the netlist
/// are probes. With `until` a trigger stands behind them, and the trace ends behind the first clock in which it is 1. Free
/// latches start at `unknown`. Where there are many clocks, a netlist with fewer tables is run in its place.
/// The stimulus is read again in batches of 256 clocks, and memory is taken for one batch at a time. Where a read or a write
/// fails or memory runs out, a front of the trace was appended. Where nothing is told of the text of the stimulus, it may have
/// changed since it was checked: then it may be found at fault, or the trace is that of other rows with the same width, as
/// many as were counted.
pub fn write_trace<S: Shelf, O: Sink>(
    alloc: Global,
    ordered: &Ordered,
    probes: u32,
    until: bool,
    unknown: bool,
    rows: &mut Rereading<'_, '_, S>,
    out: &mut O,
) -> Result<(), RunFault>
    requires columns { rows.old.stimulus.now.width ≡ ordered.now.flat.inputs }
    requires probes { probes ≤ shown_count until (length ordered.now.flat.outputs) }
    ensures shelf { rows.new.shelf.ghost_name ≡ rows.old.shelf.ghost_name }
    ensures streams { Streams (flat_trace_until until probes unknown ordered.now.flat) (λ _. Unit {0})
        rows.old rows.new (O.seen out.old) (O.seen out.new) result }
{
    match merged_before(alloc, ordered, rows) {
        Some(merged) => simulate(alloc, &merged, probes, until, unknown, rows, out),
        None => simulate(alloc, ordered, probes, until, unknown, rows, out),
    }
}

//! Works out the clocks of a netlist, and writes its wave piece by piece.
ghost use Rattle.std.specs.Prelude.{◌≡◌, ◌+◌, length};
ghost use Rattle.vw_net.specs.Cells.{latch_count};
ghost use Rattle.vw_outside.specs.Writes.{WritesOut};
ghost use Rattle.vw_trace.specs.Streamed.{DoneBy, Feeds, Streams};
ghost use Rattle.vw_trace.specs.Triggers.{shown_count};
ghost use Rattle.vw_text.specs.Physical.{lines_text};
ghost use Rattle.vw_vcd.specs.Lines.{lines_of_head};
ghost use Rattle.vw_wave.specs.FlatWave.{flat_wave_until, wave_until};

use crate::recorder::WaveRecorder;
use std::alloc::Global;
use vw_net::{Flat, Ordered};
use vw_outside::{Name, Shelf, Sink, Unwritten, put_text};
use vw_rows::Rereading;
use vw_trace::{Engine, RunFault, Simulation, merged_before, record_run, shown_count};
use vw_vcd::head;

/// Writes the head of a wave of signals with these names.
fn write_head<O: Sink>(
    alloc: Global,
    flat: &Flat,
    names: &[Name],
    until: bool,
    out: &mut O,
) -> Result<(), Unwritten>
    requires { length names.now ≡ shown_count until (length flat.now.outputs) + latch_count flat.now.cells }
    ensures { WritesOut (lines_text (lines_of_head names.now)) (O.seen out.old) (O.seen out.new)
        result }
{
    let text = head(alloc, names);
    put_text(text, out)
}

/// Has an engine work out the clocks of all rows that a stimulus still gives, from where it stands, and appends the wave of
/// its netlist. The clocks are numbered from the engine's next one on. The signals are the outputs and behind them the
/// latches, in the order of the cells; `names` are their printed nets. With `until` the last output is a trigger, which isn't
/// shown and has no name: the wave ends behind the first clock in which it is 1. The stimulus is read again in batches of 256 clocks,
/// and memory is taken for one batch at a time: a clock takes none but for its lines. Where a read or a write fails or memory
/// runs out, a front of the wave was appended. Where nothing is told of the text of the stimulus, it may have changed since it
/// was checked: then it may be found at fault, or the wave is that of other rows with the same width, as many as were counted.
pub fn write_wave_by<E: Engine, S: Shelf, O: Sink>(
    alloc: Global,
    engine: &mut E,
    names: &[Name],
    until: bool,
    rows: &mut Rereading<'_, '_, S>,
    out: &mut O,
) -> Result<(), RunFault>
    requires feeds { Feeds (E.seen engine.old) rows.old.stimulus.now }
    requires names { length names.now ≡ shown_count until (length (E.seen engine.old).netlist.outputs)
        + latch_count (E.seen engine.old).netlist.cells }
    ensures { let seen = E.seen engine.old in
        Streams (wave_until until names.now seen.clock seen.state seen.netlist)
        (DoneBy until (λ _. Unit {0}) seen (E.seen engine.new) result)
        rows.old rows.new (O.seen out.old) (O.seen out.new) result }
{
    let outputs = shown_count(until, engine.flat().outputs().len());
    let mut recorder = WaveRecorder::make(
        alloc,
        engine.flat(),
        outputs,
        engine.clock(),
        engine.state(),
    )?;
    write_head(alloc, engine.flat(), names, until, out)?;
    record_run(alloc, engine, rows, until, &mut recorder, out)
}

/// Simulates a netlist over all rows that a stimulus still gives, and appends its wave.
fn simulate<S: Shelf, O: Sink>(
    alloc: Global,
    ordered: &Ordered,
    names: &[Name],
    until: bool,
    unknown: bool,
    rows: &mut Rereading<'_, '_, S>,
    out: &mut O,
) -> Result<(), RunFault>
    requires columns { rows.old.stimulus.now.width ≡ ordered.now.flat.inputs }
    requires names { length names.now ≡ shown_count until (length ordered.now.flat.outputs)
        + latch_count ordered.now.flat.cells }
    ensures shelf { rows.new.shelf.ghost_name ≡ rows.old.shelf.ghost_name }
    ensures streams { Streams (flat_wave_until until names.now unknown ordered.now.flat) (λ _. Unit {0})
        rows.old rows.new (O.seen out.old) (O.seen out.new) result }
{
    let start = ordered.flat().start(alloc, unknown)?;
    let mut simulation = Simulation::make(alloc, ordered, start)?;
    write_wave_by(alloc, &mut simulation, names, until, rows, out)
}

/// Runs a netlist over all rows that a stimulus still gives, and appends its wave, as `write_wave_by` does of an engine. Its
/// signals are the outputs, but for a trigger, and behind them the latches, in the order of the cells; `names` are their printed
/// nets. Free latches start at `unknown`. Where there are many clocks, a netlist with fewer tables is run in its place.
pub fn write_wave<S: Shelf, O: Sink>(
    alloc: Global,
    ordered: &Ordered,
    names: &[Name],
    until: bool,
    unknown: bool,
    rows: &mut Rereading<'_, '_, S>,
    out: &mut O,
) -> Result<(), RunFault>
    requires columns { rows.old.stimulus.now.width ≡ ordered.now.flat.inputs }
    requires names { length names.now ≡ shown_count until (length ordered.now.flat.outputs)
        + latch_count ordered.now.flat.cells }
    ensures shelf { rows.new.shelf.ghost_name ≡ rows.old.shelf.ghost_name }
    ensures streams { Streams (flat_wave_until until names.now unknown ordered.now.flat) (λ _. Unit {0})
        rows.old rows.new (O.seen out.old) (O.seen out.new) result }
{
    match merged_before(alloc, ordered, rows) {
        Some(merged) => simulate(alloc, &merged, names, until, unknown, rows, out),
        None => simulate(alloc, ordered, names, until, unknown, rows, out),
    }
}

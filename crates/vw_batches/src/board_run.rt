//! Runs of a planned design, and their traces.
ghost use Rattle.std.specs.Prelude.{◌≡◌, ◌≤◌, length};
ghost use Rattle.vw_net.specs.Cells.{start_values};
ghost use Rattle.vw_plan.specs.PlannedBoard.{planned_board};
ghost use Rattle.vw_prog.specs.Scripts.{planned_of};
ghost use Rattle.vw_trace.specs.FlatTrace.{flat_trace_until, trace_until};
ghost use Rattle.vw_trace.specs.Streamed.{DoneBy, Feeds, Streams};
ghost use Rattle.vw_trace.specs.Triggers.{shown_count, worked};
ghost use Rattle.vw_batches.specs.Runs.{engine_of};
ghost use Rattle.vw_batches.specs.Traffic.{HaveCarried, grown_by, scripts_of, traffic};

use crate::floor::Floor;
use crate::going::go_on;
use crate::running_board::RunningBoard;
use std::alloc::Global;
use std::marker::Sync;
use std::sync::Wait;
use std::thread::Threads;
use vw_outside::{BurstGate, Shelf, Sink};
use vw_plan::Checked;
use vw_prog::Fabric;
use vw_rows::Rereading;
use vw_trace::{Engine, RunFault, TraceRecorder, shown_count, write_head, write_trace_by};

/// Runs a planned design on its board over all rows that a stimulus still gives, and appends the trace of the unpartitioned
/// design. The last `probes` outputs of its netlist are probes. With `until` a trigger stands behind them, which isn't shown: the
/// trace ends behind the first clock in which it is 1, and no batch behind it is read. Free latches start at `unknown`.
///
/// The programs of all nodes are made first. Then the stimulus is read again in batches of 256 clocks, and each is a job of
/// the board: memory is taken for one batch at a time, all but that of its lines before its first step. Where a read or a
/// write fails or memory runs out, a front of the trace was appended. Where nothing is told of the text of the stimulus, it
/// may have changed since it was checked: then it may be found at fault, or the trace is that of other rows with the same
/// width, as many as were counted.
pub fn run_alone<S: Shelf, O: Sink>(
    alloc: Global,
    checked: Checked,
    probes: u32,
    until: bool,
    unknown: bool,
    rows: &mut Rereading<'_, '_, S>,
    out: &mut O,
) -> Result<(), RunFault>
    requires columns { rows.old.stimulus.now.width ≡ checked.ordered.flat.inputs }
    requires probes { probes ≤ shown_count until (length checked.ordered.flat.outputs) }
    ensures shelf { rows.new.shelf.ghost_name ≡ rows.old.shelf.ghost_name }
    ensures streams { Streams (flat_trace_until until probes unknown checked.ordered.flat) (λ _. Unit {0})
        rows.old rows.new (O.seen out.old) (O.seen out.new) result }
{
    let mut board = RunningBoard::start(alloc, checked, unknown)?;
    write_trace_by(alloc, &mut board, probes, until, rows, out)
}

/// Runs a board over all rows that a stimulus still gives, from where it stands, and appends the trace, whose last `probes`
/// outputs are probes, but for a trigger behind them, with `until`.
pub fn write_trace_on<R: Threads + Wait + Sync, F: Fabric, G: BurstGate, S: Shelf, O: Sink>(
    alloc: Global,
    board: &mut RunningBoard,
    probes: u32,
    until: bool,
    floor: &mut Floor<'_, '_, '_, R, F, G>,
    rows: &mut Rereading<'_, '_, S>,
    out: &mut O,
) -> Result<(), RunFault>
    requires feeds { Feeds (engine_of board.old.job) rows.old.stimulus.now }
    requires probes { probes ≤ shown_count until (length board.old.job.checked.ordered.flat.outputs) }
    ensures fabric { floor.new.fabric.ghost_name ≡ floor.old.fabric.ghost_name }
    ensures streams { let job = board.old.job in
        Streams (trace_until until probes job.first job.start job.checked.ordered.flat)
        (DoneBy until (HaveCarried floor.old.workers (planned_of job) job.first job.start
        (F.carried floor.old.fabric.now) (F.carried floor.new.fabric.now))
        (engine_of job) (engine_of board.new.job) result)
        rows.old rows.new (O.seen out.old) (O.seen out.new) result }
{
    write_head(alloc, board.flat(), probes, until, board.state(), out)?;
    let outputs = shown_count(until, board.flat().outputs().len());
    let mut recorder = TraceRecorder::make(board.flat(), outputs, board.clock(), board.state());
    go_on(alloc, board, floor, rows, until, &mut recorder, out)
}

/// Runs a planned design on its board over all rows that a stimulus still gives, with the workers of a floor, and appends the
/// trace of the unpartitioned design. The last `probes` outputs of its netlist are probes, but for a trigger behind them, with
/// `until`, where the trace ends. Free latches start at `unknown`.
///
/// With one worker it does what `run_alone` does, and the fabric isn't touched. With more the board runs in the same batches,
/// each a job over links that are laid for it and lifted after it: all memory of a batch but that of its lines is taken
/// before its first step. The workers run at the same time and wait for each other, so it isn't proved that it returns. Where it
/// does, each link has carried the words of the plan over all clocks, with a trigger up to the end of the batch in which the trace
/// ends, and after a fault those of the first clocks alone. Where nothing is told of the text of the stimulus, the rows may be other ones, as many as were counted.
pub fn run<R: Threads + Wait + Sync, F: Fabric, G: BurstGate, S: Shelf, O: Sink>(
    alloc: Global,
    checked: Checked,
    probes: u32,
    until: bool,
    unknown: bool,
    floor: &mut Floor<'_, '_, '_, R, F, G>,
    rows: &mut Rereading<'_, '_, S>,
    out: &mut O,
) -> Result<(), RunFault>
    requires columns { rows.old.stimulus.now.width ≡ checked.ordered.flat.inputs }
    requires probes { probes ≤ shown_count until (length checked.ordered.flat.outputs) }
    ensures shelf { rows.new.shelf.ghost_name ≡ rows.old.shelf.ghost_name }
    ensures fabric { floor.new.fabric.ghost_name ≡ floor.old.fabric.ghost_name }
    ensures streams { let planned = planned_board checked.ordered checked.board checked.plan in
        Streams (flat_trace_until until probes unknown checked.ordered.flat)
        (λ these. let some = worked until checked.ordered.flat (start_values unknown checked.ordered.flat.cells) these in
        F.carried floor.new.fabric.now
        ≡ grown_by (scripts_of floor.old.workers (traffic planned unknown some)) (F.carried floor.old.fabric.now))
        rows.old rows.new (O.seen out.old) (O.seen out.new) result }
{
    let mut board = RunningBoard::start(alloc, checked, unknown)?;
    write_trace_on(alloc, &mut board, probes, until, floor, rows, out)
}

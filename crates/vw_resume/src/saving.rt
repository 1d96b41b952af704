//! Runs of a planned design of which the state at their end is kept.
ghost use Rattle.std.specs.Prelude.{◌≡◌, ◌<◌};
ghost use Rattle.vw_net.specs.Cells.{start_values};
ghost use Rattle.vw_plan.specs.PlannedBoard.{planned_board};
ghost use Rattle.vw_trace.specs.Streamed.{StopsSilently, Streams};
ghost use Rattle.vw_trace.specs.Triggers.{worked};
ghost use Rattle.vw_batches.specs.Traffic.{HaveCarried};
ghost use Rattle.vw_resume.specs.Saved.{counted_from_start, kept_texts, saved_text};

use crate::keeping::KeepingRecorder;
use crate::recorder::StateRecorder;
use std::alloc::Global;
use std::marker::Sync;
use std::sync::Wait;
use std::thread::Threads;
use vw_batches::{Floor, RunningBoard, go_on};
use vw_outside::{BurstGate, Shelf, Sink};
use vw_plan::Checked;
use vw_prog::Fabric;
use vw_rows::Rereading;
use vw_trace::{Engine, RunFault, shown_count};

/// Runs a planned design on its board over all rows that a stimulus still gives, with the workers of a floor, and appends
/// the text of the state after the last clock, and nothing else. With `until` the last output of the netlist is a trigger: the
/// last clock is the first in which it is 1, and no batch behind it is read. Free latches start at `unknown`.
///
/// As in any run, memory is taken for a batch of 256 clocks at a time, each link carries the words of the plan, where there
/// are two workers or more, and it isn't proved that the call returns. No line of a trace is made. Where the rows can't be
/// read again, nothing was written; where a write fails or memory runs out, a front of the text was appended. Where nothing
/// is told of the text of the stimulus, it may have changed since it was checked: then it may be found at fault, or the state
/// is that after other rows with the same width, as many as were counted.
pub fn save<T: Threads + Wait + Sync, F: Fabric, G: BurstGate, S: Shelf, O: Sink>(
    alloc: Global,
    checked: Checked,
    until: bool,
    unknown: bool,
    floor: &mut Floor<'_, '_, '_, T, F, G>,
    rows: &mut Rereading<'_, '_, S>,
    out: &mut O,
) -> Result<(), RunFault>
    requires { rows.old.stimulus.now.width ≡ checked.ordered.flat.inputs }
    ensures shelf { rows.new.shelf.ghost_name ≡ rows.old.shelf.ghost_name }
    ensures fabric { floor.new.fabric.ghost_name ≡ floor.old.fabric.ghost_name }
    ensures streams { let planned = planned_board checked.ordered checked.board checked.plan in
        Streams (λ these. saved_text unknown checked.ordered.flat
        (counted_from_start until unknown checked.ordered.flat these))
        (λ these. let start = start_values unknown checked.ordered.flat.cells in
        HaveCarried floor.old.workers planned 0 start
        (F.carried floor.old.fabric.now) (F.carried floor.new.fabric.now)
        (worked until checked.ordered.flat start these))
        rows.old rows.new (O.seen out.old) (O.seen out.new) result }
    ensures silent { StopsSilently (O.seen out.old) (O.seen out.new) result }
{
    let mut board = RunningBoard::start(alloc, checked, unknown)?;
    let outputs = shown_count(until, board.flat().outputs().len());
    let mut recorder = StateRecorder::make(board.flat(), outputs, board.state());
    go_on(alloc, &mut board, floor, rows, until, &mut recorder, out)
}

/// Runs a planned design on its board over all rows that a stimulus still gives, with the workers of a floor, and appends
/// the text of the state behind each `every` clocks, and behind the last clock where none is appended there so. Each is what
/// `save` appends of so many first rows. The last clock is that of `save`, too. Free latches start at `unknown`.
///
/// All else is as in `save`, but that texts are written on the way: where the rows can't be read again, or a write fails or
/// memory runs out, a front of them was appended.
pub fn save_every<T: Threads + Wait + Sync, F: Fabric, G: BurstGate, S: Shelf, O: Sink>(
    alloc: Global,
    checked: Checked,
    until: bool,
    unknown: bool,
    every: u64,
    floor: &mut Floor<'_, '_, '_, T, F, G>,
    rows: &mut Rereading<'_, '_, S>,
    out: &mut O,
) -> Result<(), RunFault>
    requires some { 0 < every }
    requires columns { rows.old.stimulus.now.width ≡ checked.ordered.flat.inputs }
    ensures shelf { rows.new.shelf.ghost_name ≡ rows.old.shelf.ghost_name }
    ensures fabric { floor.new.fabric.ghost_name ≡ floor.old.fabric.ghost_name }
    ensures streams { let planned = planned_board checked.ordered checked.board checked.plan in
        Streams (λ these. kept_texts every (saved_text unknown checked.ordered.flat)
        (counted_from_start until unknown checked.ordered.flat these))
        (λ these. let start = start_values unknown checked.ordered.flat.cells in
        HaveCarried floor.old.workers planned 0 start
        (F.carried floor.old.fabric.now) (F.carried floor.new.fabric.now)
        (worked until checked.ordered.flat start these))
        rows.old rows.new (O.seen out.old) (O.seen out.new) result }
{
    let mut board = RunningBoard::start(alloc, checked, unknown)?;
    let outputs = shown_count(until, board.flat().outputs().len());
    let mut recorder = KeepingRecorder::make(board.flat(), outputs, board.state(), every);
    go_on(alloc, &mut board, floor, rows, until, &mut recorder, out)
}

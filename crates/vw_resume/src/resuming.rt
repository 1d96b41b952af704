//! Runs of a planned design that go on from a state.
ghost use Rattle.std.specs.Prelude.{◌≡◌, ◌<◌, ◌≤◌, ◌+◌, ◌^◌, length};
ghost use Rattle.vw_net.specs.Cells.{latch_count};
ghost use Rattle.vw_plan.specs.PlannedBoard.{planned_board};
ghost use Rattle.vw_trace.specs.FlatTrace.{trace_until};
ghost use Rattle.vw_trace.specs.Streamed.{Streams, clocks_left};
ghost use Rattle.vw_trace.specs.Triggers.{shown_count, worked};
ghost use Rattle.vw_batches.specs.Traffic.{HaveCarried};

use crate::state::State;
use std::alloc::Global;
use std::marker::Sync;
use std::sync::Wait;
use std::thread::Threads;
use vw_batches::{Floor, RunningBoard, write_trace_on};
use vw_outside::{BurstGate, Shelf, Sink};
use vw_plan::Checked;
use vw_prog::Fabric;
use vw_rows::Rereading;
use vw_trace::RunFault;

/// Runs a planned design on its board from a state on, over all rows that a stimulus still gives, with the workers
/// of a floor, and appends the trace of the unpartitioned design from that state on, whose last
/// `probes` outputs are probes. With `until` a trigger stands behind them, which isn't shown: the trace ends behind the first clock
/// in which it is 1, and no batch behind it is read. The clocks are numbered from the state's.
///
/// The state may come from another board, another plan and another number of workers: only the number of its latches and of
/// its clocks matter. As in any run, memory is taken for a batch of 256 clocks at a time, each link carries the words of the
/// plan over the clocks that are worked out, where there are two workers or more, and it isn't proved that the call returns. Where
/// a read or a write fails or memory runs out, a front of the trace was appended.
pub fn run_watched_from<T: Threads + Wait + Sync, F: Fabric, G: BurstGate, S: Shelf, O: Sink>(
    alloc: Global,
    checked: Checked,
    probes: u32,
    until: bool,
    state: State,
    floor: &mut Floor<'_, '_, '_, T, F, G>,
    rows: &mut Rereading<'_, '_, S>,
    out: &mut O,
) -> Result<(), RunFault>
    requires columns { rows.old.stimulus.now.width ≡ checked.ordered.flat.inputs }
    requires probes { probes ≤ shown_count until (length checked.ordered.flat.outputs) }
    requires latches { length state.latches ≡ latch_count checked.ordered.flat.cells }
    requires clocks { state.clock + clocks_left rows.old.stimulus.now < 2 ^ 32 }
    ensures shelf { rows.new.shelf.ghost_name ≡ rows.old.shelf.ghost_name }
    ensures fabric { floor.new.fabric.ghost_name ≡ floor.old.fabric.ghost_name }
    ensures streams { let planned = planned_board checked.ordered checked.board checked.plan in
        Streams (trace_until until probes state.clock state.latches checked.ordered.flat)
        (λ these. HaveCarried floor.old.workers planned state.clock state.latches
        (F.carried floor.old.fabric.now) (F.carried floor.new.fabric.now)
        (worked until checked.ordered.flat state.latches these))
        rows.old rows.new (O.seen out.old) (O.seen out.new) result }
{
    let State { clock, latches } = state;
    let mut board = RunningBoard::make(alloc, checked, clock, latches)?;
    write_trace_on(alloc, &mut board, probes, until, floor, rows, out)
}

//! Runs of a board in batches of clocks, with any number of workers, and what is written down meanwhile.
//!
//! Several workers have a loop of their own beside that of `vw_trace`, over the same lemmas, since a trait's method can't
//! start threads over what its type is generic in.
ghost use Rattle.std.specs.Prelude.{◌≡◌, ◌<◌};
ghost use Rattle.vw_prog.specs.Scripts.{planned_of};
ghost use Rattle.vw_trace.specs.Recorders.{IsOf};
ghost use Rattle.vw_trace.specs.Streamed.{Feeds, Records};
ghost use Rattle.vw_batches.specs.Runs.{engine_of};
ghost use Rattle.vw_batches.specs.Traffic.{HaveCarried};

use crate::floor::Floor;
use crate::running_board::RunningBoard;
use std::alloc::Global;
use std::marker::Sync;
use std::sync::Wait;
use std::thread::Threads;
use vw_net::histories_join;
use vw_outside::{BurstGate, Shelf, Sink, put_text};
use vw_prog::Fabric;
use vw_rows::Rereading;
use vw_trace::{BATCH, Engine, Recorder, RunFault, record_run, write_clocks};

/// Runs a board with several workers over all rows that a stimulus still gives.
fn go_together<T: Threads + Wait + Sync, F: Fabric, G: BurstGate, R: Recorder, S: Shelf, O: Sink>(
    alloc: Global,
    board: &mut RunningBoard,
    floor: &mut Floor<'_, '_, '_, T, F, G>,
    rows: &mut Rereading<'_, '_, S>,
    until: bool,
    recorder: &mut R,
    out: &mut O,
) -> Result<(), RunFault>
    requires several { 1 < floor.old.workers }
    requires feeds { Feeds (engine_of board.old.job) rows.old.stimulus.now }
    requires its { IsOf until (engine_of board.old.job) (R.seen recorder.old) }
    ensures fabric { floor.new.fabric.ghost_name ≡ floor.old.fabric.ghost_name }
    ensures records { let job = board.old.job in
        Records until (HaveCarried floor.old.workers (planned_of job) job.first job.start
        (F.carried floor.old.fabric.now) (F.carried floor.new.fabric.now))
        rows.old rows.new (engine_of job) (engine_of board.new.job) (R.seen recorder.old)
        (O.seen out.old) (O.seen out.new) result }
{
    histories_join();
    while rows.has_more() {
        let next = rows.next_batch(alloc, BATCH)?;
        let batch = floor.work_out(alloc, board, next)?;
        let behind = board.state();
        let ends = write_clocks(alloc, recorder, until, &batch, behind, out)?;
        if ends {
            return Ok(());
        }
    }
    let last = board.state();
    let rest = recorder.end(alloc, last);
    put_text(rest, out)?;
    Ok(())
}

/// Runs a board over all rows that a stimulus still gives, with the workers of a floor, and appends the text that a recorder
/// makes of it. The clocks are numbered from the board's next one on. With `until` the last output of its netlist is a trigger:
/// the text ends behind the first clock in which it is 1, and no batch behind it is read.
///
/// The stimulus is read again in batches of 256 clocks, and each is a job of the board: memory is taken for one batch at a
/// time, all but that of its lines before its first step. With one worker the fabric isn't touched. With more each batch is
/// a job over links that are laid for it and lifted after it. The workers run at the same time and wait for each other, so
/// it isn't proved that it returns. Where it does, each link has carried the words of the plan over all clocks, or up to the end
/// of the batch in which the text ends, and after a fault those of the first clocks alone.
///
/// Where a read or a write fails or memory runs out, a front of the text was appended, and nothing is known of where the board
/// and the recorder stand. Where nothing is told of the text of the stimulus, it may have changed since it was checked: then it
/// may be found at fault, or what is written is of other rows with the same width. Where the rows can't be read again, a
/// recorder that waits for its end has written nothing.
pub fn go_on<T: Threads + Wait + Sync, F: Fabric, G: BurstGate, R: Recorder, S: Shelf, O: Sink>(
    alloc: Global,
    board: &mut RunningBoard,
    floor: &mut Floor<'_, '_, '_, T, F, G>,
    rows: &mut Rereading<'_, '_, S>,
    until: bool,
    recorder: &mut R,
    out: &mut O,
) -> Result<(), RunFault>
    requires feeds { Feeds (engine_of board.old.job) rows.old.stimulus.now }
    requires its { IsOf until (engine_of board.old.job) (R.seen recorder.old) }
    ensures fabric { floor.new.fabric.ghost_name ≡ floor.old.fabric.ghost_name }
    ensures records { let job = board.old.job in
        Records until (HaveCarried floor.old.workers (planned_of job) job.first job.start
        (F.carried floor.old.fabric.now) (F.carried floor.new.fabric.now))
        rows.old rows.new (engine_of job) (engine_of board.new.job) (R.seen recorder.old)
        (O.seen out.old) (O.seen out.new) result }
{
    if floor.workers < 2 {
        return record_run(alloc, board, rows, until, recorder, out);
    }
    go_together(alloc, board, floor, rows, until, recorder, out)
}

//! Works out the clocks of a netlist over a stimulus, and writes down what a recorder makes of them.
ghost use Rattle.vw_trace.specs.Recorders.{IsOf};
ghost use Rattle.vw_trace.specs.Streamed.{Feeds, Records};

use crate::engine::Engine;
use crate::fault::RunFault;
use crate::recorder::Recorder;
use crate::trigger::write_clocks;
use std::alloc::Global;
use vw_net::histories_join;
use vw_outside::{Shelf, Sink, put_text};
use vw_rows::Rereading;

/// How many clocks are worked out before they are written down.
pub const BATCH: u32 = 256;

/// Has an engine work out the clocks of all rows that a stimulus still gives, and appends the text that a recorder makes of
/// them. The clocks are numbered from the engine's next one on. With `until` the last output of its netlist is a trigger, which
/// the recorder isn't shown: the text ends behind the first clock in which it is 1, and no batch behind it is read.
///
/// The stimulus is read again in batches of 256 clocks, and memory is taken for one batch at a time: all but that of its
/// lines before its first clock. Where a read or a write fails or memory runs out, a front of the text was appended, and
/// nothing is known of where the engine and the recorder stand. Where nothing is told of the text of the stimulus, it may
/// have changed since it was checked: then it may be found at fault, or what is written is of other rows with the same width,
/// as many as were counted. After a success the engine has worked out each clock once, up to
/// the end of the batch in which the text ends.
pub fn record_run<E: Engine, R: Recorder, S: Shelf, O: Sink>(
    alloc: Global,
    engine: &mut E,
    rows: &mut Rereading<'_, '_, S>,
    until: bool,
    recorder: &mut R,
    out: &mut O,
) -> Result<(), RunFault>
    requires feeds { Feeds (E.seen engine.old) rows.old.stimulus.now }
    requires its { IsOf until (E.seen engine.old) (R.seen recorder.old) }
    ensures { Records until (λ _. Unit {0}) rows.old rows.new (E.seen engine.old)
        (E.seen engine.new) (R.seen recorder.old) (O.seen out.old) (O.seen out.new) result }
{
    histories_join();
    while rows.has_more() {
        let next = rows.next_batch(alloc, BATCH)?;
        let batch = engine.work_out(alloc, next)?;
        let behind = engine.state();
        let ends = write_clocks(alloc, recorder, until, &batch, behind, out)?;
        if ends {
            return Ok(());
        }
    }
    let last = engine.state();
    let rest = recorder.end(alloc, last);
    put_text(rest, out)?;
    Ok(())
}

//! What writes down the clocks of a netlist, so that one loop serves every text over them.
ghost use Rattle.std.specs.Prelude.{◌≡◌, ◌++◌, [], length, IfOk, OnOk};
ghost use Rattle.std.specs.Bool.{OnTrue};
ghost use Rattle.vw_net.specs.History.{History};
ghost use Rattle.vw_trace.specs.Recorded.{clocks_before, no_more_clocks};
ghost use Rattle.vw_trace.specs.Recorders.{FitsBatch, IsBehind, SeenRecorder, Wrote};

use crate::engine::Batch;
use std::alloc::{AllocError, Global};
use vw_net::Bits;
use vw_outside::{Sink, Unwritten, put_text};

/// What writes down the clocks of a netlist, batch by batch: as a trace, or as waves.
pub trait Recorder {
    /// The text that is still left, the numbers of outputs and latches, the next clock, and whether nothing is written before
    /// the end.
    ghost seen: { Self → SeenRecorder };

    /// The text of the next clocks. It takes memory for it; where there is none, nothing is known of the recorder.
    fn lines(&mut self, alloc: Global, batch: &Batch) -> Result<Vec<u8>, AllocError>
        requires { FitsBatch (seen self.old) batch.now }
        ensures text { IfOk result (λ text. (more : History)
            → (seen self.old).left (clocks_before batch.now.outputs batch.now.states more)
            ≡ text.items ++ (seen self.new).left more) }
        ensures silent { OnTrue (seen self.old).waits (IfOk result (λ text. text.items ≡ [])) }
        ensures stands { OnOk result (IsBehind (length batch.now.outputs) (seen self.old)
            (seen self.new)) };

    /// The text that follows the last clock, after which the latches have these values. It takes memory for it.
    fn end(&self, alloc: Global, last: &Bits) -> Result<Vec<u8>, AllocError>
        requires { length last.now ≡ (seen self.now).latches }
        ensures { IfOk result (λ text. text.items
            ≡ (seen self.now).left (no_more_clocks last.now)) };
}

/// Writes down the next clocks. It takes memory for their text; where there is none, nothing was written. Where it wasn't
/// written whole, nothing is known of the recorder.
pub fn write_batch<R: Recorder, O: Sink>(
    alloc: Global,
    recorder: &mut R,
    batch: &Batch,
    out: &mut O,
) -> Result<(), Unwritten>
    requires { FitsBatch (R.seen recorder.old) batch.now }
    ensures { Wrote (R.seen recorder.old) (R.seen recorder.new) batch.now (O.seen out.old)
        (O.seen out.new) result }
{
    let lines = recorder.lines(alloc, batch)?;
    put_text(Ok(lines), out)
}

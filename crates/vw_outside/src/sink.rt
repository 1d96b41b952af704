ghost use Rattle.std.specs.Prelude.{◌≡◌, ℕ, List, IfOk, OnOk, OnErr};
ghost use Rattle.vw_outside.specs.Writes.{SeenSink, WriteEnds, appended, FailedAfterPart, WritesOut};

use crate::unwritten::Unwritten;
use std::alloc::AllocError;

/// A read or a write failed, and the fault was counted.
#[derive(Clone, Copy, Debug, PartialEq, Eq)]
pub struct Failed;

/// A place that bytes are written to, one piece after the other. It tells nothing, or the bytes so far. It counts
/// its faults; a count that has come to 2 ^ 64 - 1 stays there.
pub trait Sink {
    /// The bytes so far, where it tells them, and the count of faults.
    ghost seen: { Self → SeenSink };

    /// Appends the front of a piece, and says how many bytes: at least one where the piece has any. A write that
    /// fails appends nothing and counts a fault; one that succeeds counts none.
    fn write(&mut self, piece: &[u8]) -> Result<usize, Failed>
        ensures { WriteEnds piece.now (seen self.old) (seen self.new) result };
}

/// Appends all the bytes, in as many writes as it takes. It stops at the first write that fails; then a part of
/// the bytes, from their front, was appended. It takes no memory.
pub fn put_all<O: Sink>(out: &mut O, bytes: &[u8]) -> Result<(), Failed>
    ensures all { OnOk result (O.seen out.new ≡ appended (O.seen out.old) bytes.now) }
    ensures part { OnErr result (FailedAfterPart bytes.now (O.seen out.old) (O.seen out.new)) }
{
    let mut done = 0;
    while done < bytes.len() {
        done += out.write(&bytes[done..])?;
    }
    Ok(())
}

/// Appends a text, where there was memory for it. A text that wasn't made appends nothing.
pub fn put_text<O: Sink>(text: Result<Vec<u8>, AllocError>, out: &mut O) -> Result<(), Unwritten>
    ensures { (wanted : List ℕ) → IfOk text (λ made. made.items ≡ wanted)
        → WritesOut wanted (O.seen out.old) (O.seen out.new) result }
{
    let text = text?;
    put_all(out, &text)?;
    Ok(())
}

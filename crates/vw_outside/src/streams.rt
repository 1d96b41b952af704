//! Standard output and standard error. A sink over them counts faults and tells nothing.
ghost use Rattle.std.specs.Prelude.{◌≡◌, ◌≤◌, ◌<◌, None, length, IfSome};

use crate::sink::{Failed, Sink};
use std::io::{Stderr, Stdout, Write};
use std::marker::Model;

/// A stream of bytes that each write flushes. Contracts see the count of faults.
#[derive(Drop)]
pub struct StreamSink<W: Write + Drop> {
    stream: W,
    faults: u64,
}

/// Standard output.
pub type OutSink = StreamSink<Stdout>;

/// Standard error.
pub type ErrSink = StreamSink<Stderr>;

impl<W: Write + Drop> Model for StreamSink<W> {
    ghost use Rattle.std.specs.Prelude.{ℕ};

    ghost Value = { ℕ };

    ghost view = { λ sink. sink.faults };
}

impl StreamSink<Stdout> {
    /// The standard output of this runtime, with no fault so far.
    pub fn new(rt: &HostRuntime) -> Self
        ensures { result ≡ 0 }
    {
        StreamSink {
            stream: rt.stdout(),
            faults: 0,
        }
    }
}

impl StreamSink<Stderr> {
    /// The standard error of this runtime, with no fault so far.
    pub fn new(rt: &HostRuntime) -> Self
        ensures { result ≡ 0 }
    {
        StreamSink {
            stream: rt.stderr(),
            faults: 0,
        }
    }
}

/// Writes the front of a piece and flushes; nothing where that failed, or where a piece with bytes was not taken.
fn write_some<W: Write>(to: &mut W, piece: &[u8]) -> Option<usize>
    ensures within { IfSome result (λ count. count ≤ length piece.now) }
    ensures progress { IfSome result (λ count. 0 < length piece.now → 0 < count) }
{
    let count = to.write(piece).ok()?;
    to.flush().ok()?;
    if count == 0 && !piece.is_empty() {
        return None;
    }
    Some(count)
}

impl<W: Write + Drop> Sink for StreamSink<W> {
    ghost seen = { λ sink. record { told = None; faults = sink } };

    fn write(&mut self, piece: &[u8]) -> Result<usize, Failed> {
        if let Some(count) = write_some(&mut self.stream, piece) {
            return Ok(count);
        }
        self.faults = self.faults.saturating_add(1);
        Err(Failed)
    }
}

//! A place where every write succeeds, and nothing is kept.
use crate::sink::{Failed, Sink};

/// It takes every byte and drops it. No write to it fails; it counts no fault, and tells nothing.
#[derive(Clone, Copy)]
pub struct SureSink;

impl SureSink {
    /// The sink. It takes no memory.
    pub fn new() -> Self {
        SureSink
    }
}

impl Sink for SureSink {
    ghost use Rattle.std.specs.Prelude.{◌≡◌, length, Ok};
    ghost use Rattle.vw_outside.specs.Writes.{WriteEnds};
    ghost use Rattle.vw_outside.specs.Sure.{nothing_seen};

    ghost seen = { λ sink. nothing_seen };

    fn write(&mut self, piece: &[u8]) -> Result<usize, Failed>
        ensures writes { WriteEnds piece.now nothing_seen nothing_seen result }
        ensures whole { result ≡ Ok (length piece.now) }
    {
        Ok(piece.len())
    }
}

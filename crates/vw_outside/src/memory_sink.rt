ghost use Rattle.std.specs.Prelude.{◌≡◌, ◌≤◌, ◌<◌, ◌+◌, min, [], true, false, length, IfOk, OnOk, OnErr, IsOk, IsErr};
ghost use Rattle.std.specs.Vec.{vec_capacity};
ghost use Rattle.vw_outside.specs.Faults.{one_more, is_listed};
ghost use Rattle.vw_outside.specs.Writes.{WriteEnds};

use crate::sink::{Failed, Sink};
use std::alloc::{AllocError, Global};

/// Bytes in memory. Each write takes at most `most` bytes. The writes whose numbers, from 1, are listed in `failing`
/// fail; another fails only where there is no memory for its bytes.
#[derive(Drop)]
pub struct MemSink {
    pub written: Vec<u8>,
    pub most: u32,
    pub failing: Vec<u64>,
    /// How many writes there were.
    pub calls: u64,
    pub faults: u64,
    ghost takes: { 0 < most },
}

impl MemSink {
    ghost use Rattle.vw_outside.specs.Memory.{seen_sink, KeepsSinkScript};

    /// A sink with no bytes yet.
    pub fn new(alloc: Global, most: u32, failing: Vec<u64>) -> Self
        requires { 0 < most }
        ensures written { result.written.items ≡ [] }
        ensures most { result.most ≡ most }
        ensures failing { result.failing.items ≡ failing.items }
        ensures calls { result.calls ≡ 0 }
        ensures faults { result.faults ≡ 0 }
    {
        MemSink {
            written: Vec::new(alloc),
            most,
            failing,
            calls: 0,
            faults: 0,
        }
    }

    /// Takes memory for this many further bytes, so that their writes need none.
    pub fn reserve(&mut self, more: u64) -> Result<(), AllocError>
        ensures room { OnOk result (length self.new.written.items + more ≤ vec_capacity
            self.new.written) }
        ensures full { OnErr result (vec_capacity self.old.written < length
            self.old.written.items + more) }
        ensures seen { seen_sink self.new ≡ seen_sink self.old }
        ensures script { KeepsSinkScript self.old self.new }
        ensures count { self.new.calls ≡ self.old.calls }
    {
        self.written.reserve(more as usize)
    }

    /// The bytes so far.
    pub fn bytes(&self) -> &[u8]
        ensures { result.now ≡ self.now.written.items }
    {
        self.written.as_slice()
    }
}

impl Sink for MemSink {
    ghost use Rattle.vw_outside.specs.Memory.{seen_sink, KeepsSinkScript};

    ghost seen = { seen_sink };

    fn write(&mut self, piece: &[u8]) -> Result<usize, Failed>
        ensures writes { WriteEnds piece.now (seen_sink self.old) (seen_sink self.new) result }

        // It takes all that it may. A write that is listed fails, and one that isn't doesn't where there is room.
        ensures count { self.new.calls ≡ one_more self.old.calls }
        ensures pieces { IfOk result (λ count. count ≡ min (length piece.now) self.old.most) }
        ensures listed { is_listed self.old.failing.items self.new.calls ≡ true → IsErr result }
        ensures sure { is_listed self.old.failing.items self.new.calls ≡ false
            → length self.old.written.items + length piece.now ≤ vec_capacity self.old.written
            → IsOk result }
        ensures room { vec_capacity self.old.written ≤ vec_capacity self.new.written }
        ensures script { KeepsSinkScript self.old self.new }
    {
        self.calls = self.calls.saturating_add(1);
        let count = piece.len().min(self.most as usize);
        if self.failing.contains(&self.calls)
            || self.written.extend_from_slice(&piece[..count]).is_err()
        {
            self.faults = self.faults.saturating_add(1);
            return Err(Failed);
        }
        Ok(count)
    }
}

//! What is written down of a run of which states on the way are wanted, too.
ghost use Rattle.std.specs.Prelude.{◌≡◌, ◌<◌, ◌+◌, ◌++◌, ◌^◌, length, IfOk, OnOk};
ghost use Rattle.vw_net.specs.Cells.{latch_count};
ghost use Rattle.vw_resume.specs.Steps.Kept.{kept_before, kept_text};

use crate::state::state_text;
use std::alloc::{AllocError, Global};
use vw_net::{Bits, Flat, Rows};
use vw_trace::{Batch, Recorder};

/// What writes down the states of a netlist behind each so many clocks, and behind the last of them, as texts one behind the
/// other.
pub struct KeepingRecorder {
    /// The number of the next clock, counted from 0.
    pub clocks: u64,
    /// How many outputs each clock has.
    pub outputs: usize,
    /// How many latches there are.
    pub latches: usize,
    /// Behind how many clocks a state is kept.
    pub every: u64,
    ghost some: { 0 < every },
}

impl Drop for KeepingRecorder {
    fn drop(self) {
        let KeepingRecorder {
            clocks: _,
            outputs: _,
            latches: _,
            every: _,
        } = self;
    }
}

/// Appends the state before a clock, where it is kept. It takes memory for its text.
fn push_kept(
    alloc: Global,
    every: u64,
    clock: u64,
    state: &[bool],
    text: &mut Vec<u8>,
) -> Result<(), AllocError>
    requires { 0 < every }
    ensures { OnOk result (text.new.items ≡ text.old.items ++ kept_text every clock state.now) }
{
    if clock != 0 && clock % every == 0 {
        let state = state_text(alloc, clock, state)?;
        text.extend_from_slice(&state)?;
    }
    Ok(())
}

/// The states before clocks numbered from `first` on that are kept. It takes memory for their texts.
fn kept_states(alloc: Global, every: u64, first: u64, states: &Rows) -> Result<Vec<u8>, AllocError>
    requires some { 0 < every }
    requires few { first + length states.now < 2 ^ 32 }
    ensures { IfOk result (λ text. text.items ≡ kept_before every first states.now) }
{
    let mut text = Vec::new(alloc);
    for i in 0..states.len() {
        push_kept(alloc, every, first + i as u64, states.row(i), &mut text)?;
    }
    Ok(text)
}

impl KeepingRecorder {
    /// What writes down the states of a netlist from clock 0 on, with so many outputs in each, behind each `every` clocks and
    /// behind the last. These are the latch values before it.
    pub fn make(flat: &Flat, outputs: usize, start: &Bits, every: u64) -> Self
        requires some { 0 < every }
        requires latches { length start.now ≡ latch_count flat.now.cells }
        ensures clocks { result.clocks ≡ 0 }
        ensures outputs { result.outputs ≡ outputs }
        ensures latches { result.latches ≡ latch_count flat.now.cells }
        ensures every { result.every ≡ every }
    {
        KeepingRecorder {
            clocks: 0,
            outputs,
            latches: start.len(),
            every,
        }
    }
}

impl Recorder for KeepingRecorder {
    ghost use Rattle.std.specs.Prelude.{false};
    ghost use Rattle.vw_resume.specs.Steps.Kept.{kept_from};

    ghost seen = { λ recorder. record {
      left = kept_from recorder.every recorder.clocks;
      outputs = recorder.outputs;
      latches = recorder.latches;
      clock = recorder.clocks;
      waits = false;
    } };

    fn lines(&mut self, alloc: Global, batch: &Batch) -> Result<Vec<u8>, AllocError> {
        let text = kept_states(alloc, self.every, self.clocks, &batch.states)?;
        self.clocks += batch.outputs.len() as u64;
        Ok(text)
    }

    fn end(&self, alloc: Global, last: &Bits) -> Result<Vec<u8>, AllocError> {
        state_text(alloc, self.clocks, last.as_slice())
    }
}

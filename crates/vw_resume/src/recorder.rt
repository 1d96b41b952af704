//! What is written down of a run of which only the state at its end is wanted.
ghost use Rattle.std.specs.Prelude.{◌≡◌, length};
ghost use Rattle.vw_net.specs.Cells.{latch_count};

use crate::state::state_text;
use std::alloc::{AllocError, Global};
use vw_net::{Bits, Flat};
use vw_trace::{Batch, Recorder};

/// What writes down nothing of the clocks of a netlist, and behind the last of them the state.
#[derive(Drop)]
pub struct StateRecorder {
    /// The number of the next clock, counted from 0.
    pub clocks: u64,
    /// How many outputs each clock has.
    pub outputs: usize,
    /// How many latches there are.
    pub latches: usize,
}

impl StateRecorder {
    /// What writes down the state behind the clocks of a netlist from clock 0 on, with so many outputs in each. These are
    /// the latch values before it.
    pub fn make(flat: &Flat, outputs: usize, start: &Bits) -> Self
        requires { length start.now ≡ latch_count flat.now.cells }
        ensures clocks { result.clocks ≡ 0 }
        ensures outputs { result.outputs ≡ outputs }
        ensures latches { result.latches ≡ latch_count flat.now.cells }
    {
        StateRecorder {
            clocks: 0,
            outputs,
            latches: start.len(),
        }
    }
}

impl Recorder for StateRecorder {
    ghost use Rattle.std.specs.Prelude.{◌+◌, length, true};
    ghost use Rattle.vw_resume.specs.States.{state_text};

    ghost seen = { λ recorder. record {
      left = λ history. state_text (recorder.clocks + length history.outputs) history.last;
      outputs = recorder.outputs;
      latches = recorder.latches;
      clock = recorder.clocks;
      waits = true;
    } };

    fn lines(&mut self, alloc: Global, batch: &Batch) -> Result<Vec<u8>, AllocError> {
        self.clocks += batch.outputs.len() as u64;
        Ok(Vec::new(alloc))
    }

    fn end(&self, alloc: Global, last: &Bits) -> Result<Vec<u8>, AllocError> {
        state_text(alloc, self.clocks, last.as_slice())
    }
}

//! The lines of a trace.
ghost use Rattle.std.specs.Prelude.{◌≡◌, length};
ghost use Rattle.vw_net.specs.Cells.{latch_count};

use crate::engine::Batch;
use crate::recorder::Recorder;
use std::alloc::{AllocError, Global};
use vw_net::{Bits, Flat};
use vw_rows::{trace_end, trace_rows};

/// What writes down the clocks of a netlist as the lines of a trace, all but the first line.
#[derive(Drop)]
pub struct TraceRecorder {
    /// The number of the next clock, counted from 0.
    pub clocks: u64,
    /// How many outputs each clock has, with the probes among them.
    pub outputs: usize,
    /// How many latches there are.
    pub latches: usize,
}

impl TraceRecorder {
    /// What writes down the clocks of a netlist from the clock `first` on, counted from 0, with so many outputs. These are the
    /// latch values before it.
    pub fn make(flat: &Flat, outputs: usize, first: u64, state: &Bits) -> Self
        requires { length state.now ≡ latch_count flat.now.cells }
        ensures clocks { result.clocks ≡ first }
        ensures outputs { result.outputs ≡ outputs }
        ensures latches { result.latches ≡ latch_count flat.now.cells }
    {
        TraceRecorder {
            clocks: first,
            outputs,
            latches: state.len(),
        }
    }
}

impl Recorder for TraceRecorder {
    ghost use Rattle.std.specs.Prelude.{false};
    ghost use Rattle.vw_rows.specs.Trace.{trace_lines_from};

    ghost seen = { λ recorder. record {
      left = trace_lines_from recorder.clocks;
      outputs = recorder.outputs;
      latches = recorder.latches;
      clock = recorder.clocks;
      waits = false;
    } };

    fn lines(&mut self, alloc: Global, batch: &Batch) -> Result<Vec<u8>, AllocError> {
        let text = trace_rows(alloc, self.clocks, &batch.outputs, &batch.states)?;
        self.clocks += batch.outputs.len() as u64;
        Ok(text)
    }

    fn end(&self, alloc: Global, last: &Bits) -> Result<Vec<u8>, AllocError> {
        trace_end(alloc, self.clocks, last)
    }
}

//! The lines of a wave.
ghost use Rattle.std.specs.Prelude.{◌≡◌, ◌<◌, ◌≤◌, ◌+◌, ◌++◌, ◌^◌, ℕ, List, length, IfOk, OnOk, Some};
ghost use Rattle.std.specs.List.{All};
ghost use Rattle.vw_net.specs.Cells.{latch_count};
ghost use Rattle.vw_net.specs.History.{History};
ghost use Rattle.vw_text.specs.Physical.{lines_text};
ghost use Rattle.vw_vcd.specs.Changes.{last_row};
ghost use Rattle.vw_vcd.specs.Lines.{lines_of_clock, lines_of_clocks, lines_of_head, wave_text_from};
ghost use Rattle.vw_wave.specs.FlatWave.{joined_rows, signal_rows, wave_left};

use crate::row::put_signals;
use std::alloc::{AllocError, Global};
use vw_net::{Bits, Flat, Rows};
use vw_trace::{Batch, Recorder};
use vw_vcd::Wave;

/// What writes down the clocks of a netlist as a wave, all but its head.
pub struct WaveRecorder {
    /// The wave so far.
    pub wave: Wave,
    /// How many outputs each clock has, with the probes among them.
    pub outputs: usize,
    /// How many latches there are.
    pub latches: usize,
    /// The values of all signals in the clock at hand.
    row: Bits,
    ghost few: { outputs + latches < 2 ^ 32 },
    ghost signals: { wave.signals ≡ outputs + latches },
    ghost wide: { length row ≡ outputs + latches },
}

impl Drop for WaveRecorder {
    fn drop(self) {
        let WaveRecorder {
            wave: _,
            outputs: _,
            latches: _,
            row: _,
        } = self;
    }
}

impl WaveRecorder {
    /// What writes down the clocks of a netlist from the clock `first` on, counted from 0, with so many of its outputs. These
    /// are the latch values before it. It takes memory for two bits of each signal.
    pub fn make(
        alloc: Global,
        flat: &Flat,
        outputs: usize,
        first: u64,
        state: &Bits,
    ) -> Result<Self, AllocError>
        requires few { outputs ≤ length flat.now.outputs }
        requires latches { length state.now ≡ latch_count flat.now.cells }
        ensures clock { IfOk result (λ recorder. recorder.wave.clock ≡ first) }
        ensures outputs { IfOk result (λ recorder. recorder.outputs ≡ outputs) }
        ensures latches { IfOk result (λ recorder. recorder.latches ≡ latch_count flat.now.cells) }
        ensures fresh { IfOk result (λ recorder. (names : List (List ℕ)) (history : History)
            → length history.outputs ≡ length history.states
            → lines_text (lines_of_head names) ++ wave_left recorder.wave history
            ≡ wave_text_from first names (signal_rows history)) }
    {
        let latches = state.len();
        let wave = Wave::make(alloc, first, (outputs + latches) as u32)?;
        let row = Bits::of(vec![in alloc; false; outputs + latches]?);
        Ok(WaveRecorder {
            wave,
            outputs,
            latches,
            row,
        })
    }

    /// Appends the lines of the next clock. It takes memory for the text alone.
    fn push_clock(
        &mut self,
        text: &mut Vec<u8>,
        outputs: &[bool],
        state: &[bool],
    ) -> Result<(), AllocError>
        requires outputs { length outputs.now ≡ self.old.outputs }
        requires latches { length state.now ≡ self.old.latches }
        requires few { self.old.wave.clock < 2 ^ 32 }
        ensures text { OnOk result (text.new.items ≡ text.old.items
            ++ lines_text (lines_of_clock self.old.wave.clock self.old.wave.last (outputs.now ++ state.now))) }
        ensures seen { OnOk result (self.new.wave ≡ record self.old.wave {
          clock = self.old.wave.clock + 1;
          last = Some (outputs.now ++ state.now);
        }) }
        ensures outputs { self.new.outputs ≡ self.old.outputs }
        ensures latches { self.new.latches ≡ self.old.latches }
    {
        put_signals(outputs, state, &mut self.row);
        self.wave.push_row(text, &self.row)
    }

    /// Appends the lines of the next clocks.
    fn push_clocks(
        &mut self,
        text: &mut Vec<u8>,
        outputs: &Rows,
        states: &Rows,
    ) -> Result<(), AllocError>
        requires count { length outputs.now ≡ length states.now }
        requires outputs { All (λ bits. length bits ≡ self.old.outputs) outputs.now }
        requires states { All (λ bits. length bits ≡ self.old.latches) states.now }
        requires few { self.old.wave.clock + length outputs.now < 2 ^ 32 }
        ensures text { OnOk result (text.new.items ≡ text.old.items
            ++ lines_text (lines_of_clocks self.old.wave.clock self.old.wave.last
            (joined_rows outputs.now states.now))) }
        ensures clock { OnOk result (self.new.wave.clock
            ≡ self.old.wave.clock + length outputs.now) }
        ensures last { OnOk result (self.new.wave.last
            ≡ last_row self.old.wave.last (joined_rows outputs.now states.now)) }
        ensures outputs { self.new.outputs ≡ self.old.outputs }
        ensures latches { self.new.latches ≡ self.old.latches }
    {
        for clock in 0..outputs.len() {
            self.push_clock(text, outputs.row(clock), states.row(clock))?;
        }
        Ok(())
    }
}

impl Recorder for WaveRecorder {
    ghost use Rattle.std.specs.Prelude.{false};
    ghost use Rattle.vw_wave.specs.FlatWave.{wave_left};

    ghost seen = { λ recorder. record {
      left = wave_left recorder.wave;
      outputs = recorder.outputs;
      latches = recorder.latches;
      clock = recorder.wave.clock;
      waits = false;
    } };

    fn lines(&mut self, alloc: Global, batch: &Batch) -> Result<Vec<u8>, AllocError> {
        let mut text = Vec::new(alloc);
        self.push_clocks(&mut text, &batch.outputs, &batch.states)?;
        Ok(text)
    }

    fn end(&self, alloc: Global, _last: &Bits) -> Result<Vec<u8>, AllocError> {
        self.wave.end(alloc)
    }
}

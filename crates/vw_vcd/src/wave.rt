//! Waves, clock by clock.
ghost use Rattle.std.specs.Prelude.{◌≡◌, ◌<◌, ◌+◌, ◌++◌, ◌∷◌, ◌^◌, [], length, IfOk, None, OnErr, OnOk, Some};
ghost use Rattle.vw_text.specs.Physical.{lines_text};
ghost use Rattle.vw_vcd.specs.Lines.{lines_of_clock, time_line};

use crate::clock::{push_clock, push_time};
use std::alloc::{AllocError, Global};
use std::marker::Model;
use vw_net::Bits;

/// A wave under way: the number of its next clock, whether it has seen one, and then the values of the last one, one bit a
/// signal. Contracts see it as that, and as its number of signals.
pub struct Wave {
    clock: u64,
    begun: bool,
    last: Bits,
}

impl Drop for Wave {
    fn drop(self) {
        let Wave {
            clock: _,
            begun: _,
            last: _,
        } = self;
    }
}

impl Model for Wave {
    ghost use Rattle.std.specs.Prelude.{◌<◌, ◌^◌, length, if◌then◌else◌, None, Some};
    ghost use Rattle.vw_vcd.specs.Progress.{Progress};

    ghost Value = { Progress };

    ghost view = { λ wave. record {
      signals = length wave.last;
      clock = wave.clock;
      last = if wave.begun then Some wave.last else None;
    } };

    ghost invariant = { λ wave. length wave.last < 2 ^ 32 };
}

/// Writes the bits of one list over those of another.
fn copy_bits(from: &Bits, to: &mut Bits)
    requires { length to.old ≡ length from.now }
    ensures { to.new ≡ from.now }
{
    let from = from.as_slice();
    for (i, bit) in from.iter().enumerate() {
        to.set(i, *bit);
    }
}

impl Wave {
    /// A wave of so many signals that has seen no clock, and whose first one has the number `first`. It takes memory for a bit
    /// of each signal.
    pub fn make(alloc: Global, first: u64, signals: u32) -> Result<Self, AllocError>
        ensures clock { IfOk result (λ wave. wave.clock ≡ first) }
        ensures signals { IfOk result (λ wave. wave.signals ≡ signals) }
        ensures unbegun { IfOk result (λ wave. wave.last ≡ None) }
    {
        let last = Bits::of(vec![in alloc; false; signals as usize]?);
        Ok(Wave {
            clock: first,
            begun: false,
            last,
        })
    }

    /// The number of its next clock.
    pub fn clock(&self) -> u64
        ensures { result ≡ self.now.clock }
    {
        self.clock
    }

    /// Appends the lines of the next clock, in which the signals have these values: in the first clock all values, and later
    /// those that differ from the clock before; where none does, nothing. It takes memory for the text alone. Where there is
    /// none, the wave stays as it was, and some of the lines may have been appended.
    pub fn push_row(&mut self, text: &mut Vec<u8>, bits: &Bits) -> Result<(), AllocError>
        requires signals { length bits.now ≡ self.old.signals }
        requires few { self.old.clock < 2 ^ 32 }
        ensures text { OnOk result (text.new.items
            ≡ text.old.items ++ lines_text (lines_of_clock self.old.clock self.old.last bits.now)) }
        ensures seen { OnOk result (self.new
            ≡ record self.old { clock = self.old.clock + 1; last = Some bits.now }) }
        ensures refused { OnErr result (self.new ≡ self.old) }
    {
        let before = self.last.as_slice();
        push_clock(text, self.clock, self.begun, before, bits.as_slice())?;
        copy_bits(bits, &mut self.last);
        self.begun = true;
        self.clock += 1;
        Ok(())
    }

    /// The lines of the next clock, as `push_row` appends them. A refusal changes nothing.
    pub fn row(&mut self, alloc: Global, bits: &Bits) -> Result<Vec<u8>, AllocError>
        requires signals { length bits.now ≡ self.old.signals }
        requires few { self.old.clock < 2 ^ 32 }
        ensures text { IfOk result (λ text. text.items
            ≡ lines_text (lines_of_clock self.old.clock self.old.last bits.now)) }
        ensures seen { OnOk result (self.new
            ≡ record self.old { clock = self.old.clock + 1; last = Some bits.now }) }
        ensures refused { OnErr result (self.new ≡ self.old) }
    {
        let mut text = Vec::new(alloc);
        self.push_row(&mut text, bits)?;
        Ok(text)
    }

    /// The last line: the number behind that of the last clock. It takes memory for the line.
    pub fn end(&self, alloc: Global) -> Result<Vec<u8>, AllocError>
        ensures { IfOk result (λ text. text.items ≡ lines_text (time_line self.now.clock ∷ [])) }
    {
        let mut text = Vec::new(alloc);
        push_time(&mut text, self.clock)?;
        Ok(text)
    }
}

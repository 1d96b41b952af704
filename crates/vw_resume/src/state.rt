//! The state of a run between two clocks, and its text.
ghost use Rattle.std.specs.Prelude.{◌≡◌, ◌≤◌, ◌↔◌, length, IfOk, IfErr, IsTrue};
ghost use Rattle.vw_resume.specs.States.{Refuses, Spells, state_text};

use crate::fault::StateFault;
use crate::limits::LONGEST_STATE;
use crate::reading::read_loosely;
use std::alloc::{AllocError, Global};
use vw_net::{Bits, MOST_CELLS};
use vw_rows::MOST_CLOCKS;
use vw_text::push_bits;

/// Where a run stands between two clocks.
#[derive(Drop)]
pub struct State {
    /// The number of the next clock, counted from 0: so many clocks were worked out.
    pub clock: u64,
    /// The value of each latch before that clock, in the order of the cells.
    pub latches: Bits,
}

/// The text of the state with this clock and these latch values. It takes memory for the text.
pub fn state_text(alloc: Global, clock: u64, latches: &[bool]) -> Result<Vec<u8>, AllocError>
    ensures { IfOk result (λ text. text.items ≡ state_text clock latches.now) }
{
    let count = latches.len();
    let mut text = format!(in alloc; "state 1 {clock} {count} ")?.into_bytes();
    push_bits(&mut text, latches)?;
    text.push(b'\n')?;
    Ok(text)
}

impl State {
    /// The state as a text: one line with `state 1`, the number of the next clock, the number of latches, and a character
    /// for each latch, or `-` where there is none. It takes memory for the text.
    pub fn print(&self, alloc: Global) -> Result<Vec<u8>, AllocError>
        requires clocks { self.now.clock ≤ MOST_CLOCKS }
        requires latches { length self.now.latches ≤ MOST_CELLS }
        ensures { IfOk result (λ text. Spells text.items self.now) }
    {
        state_text(alloc, self.clock, self.latches.as_slice())
    }

    /// Whether a text is the spelling of the state. It takes memory for as long a text.
    fn is_spelled_by(&self, alloc: Global, text: &[u8]) -> Result<bool, AllocError>
        ensures { IfOk result (λ is. IsTrue is ↔ Spells text.now self.now) }
    {
        if self.clock > MOST_CLOCKS || self.latches.len() > MOST_CELLS as usize {
            return Ok(false);
        }
        let spelling = self.print(alloc)?;
        Ok(spelling.as_slice() == text)
    }

    /// The state that a text spells, with this number of latches. `BadText` comes exactly where the text spells no state,
    /// and `WrongLatches`, with the number found and the number wanted, exactly where it spells one with another number of
    /// latches; `TooManyClocks` and `TooFewClocks` never come. The work is linear in the text. It takes memory for each latch and for the text
    /// once more, and none for a text that is longer than any state.
    pub fn read(alloc: Global, bytes: &[u8], latches: u32) -> Result<State, StateFault>
        ensures spells { IfOk result (λ state. Spells bytes.now state) }
        ensures latches { IfOk result (λ state. length state.latches ≡ latches) }
        ensures refuses { IfErr result (Refuses bytes.now latches) }
    {
        if bytes.len() > LONGEST_STATE {
            return Err(StateFault::BadText);
        }
        let state = read_loosely(alloc, bytes)?;
        if !state.is_spelled_by(alloc, bytes)? {
            return Err(StateFault::BadText);
        }
        let found = state.latches.len() as u32;
        if found != latches {
            return Err(StateFault::WrongLatches(found, latches));
        }
        Ok(state)
    }
}

ghost use Rattle.std.specs.Prelude.{◌≡◌};

use vw_net::{Bits, Rows};

/// What a job comes to.
#[derive(Drop)]
pub struct Answer {
    /// The outputs of each clock.
    pub outputs: Rows,
    /// The value of each latch before the step of each clock, in the order of the cells.
    pub latches: Rows,
    /// The value of each latch after the last clock.
    pub last: Bits,
}

impl Answer {
    /// The answer of these parts. It takes no memory.
    pub fn make(outputs: Rows, latches: Rows, last: Bits) -> Self
        ensures outputs { result.outputs ≡ outputs }
        ensures latches { result.latches ≡ latches }
        ensures last { result.last ≡ last }
    {
        Answer {
            outputs,
            latches,
            last,
        }
    }

    /// The outputs of each clock.
    pub fn outputs(&self) -> &Rows
        ensures { result.now ≡ self.now.outputs }
    {
        &self.outputs
    }

    /// The value of each latch before the step of each clock.
    pub fn latches(&self) -> &Rows
        ensures { result.now ≡ self.now.latches }
    {
        &self.latches
    }

    /// The value of each latch after the last clock.
    pub fn last(&self) -> &Bits
        ensures { result.now ≡ self.now.last }
    {
        &self.last
    }
}

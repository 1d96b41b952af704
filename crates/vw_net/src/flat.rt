ghost use Rattle.std.specs.Prelude.{◌≡◌, ◌≤◌, ◌+◌, ◌<◌, length, IfOk};
ghost use Rattle.std.specs.List.{All};
ghost use Rattle.vw_net.specs.declared.limits.TheConstants.{MOST_INPUTS, MOST_CELLS, MOST_OUTPUTS};
ghost use Rattle.vw_net.specs.Cells.{IsWellFormed, start_value, start_values};

use crate::cell::{Cell, Init};
use crate::sequence::{Bits, Sequence};
use std::alloc::{AllocError, Global};

/// A netlist without names. Its nets are numbers: first the inputs, from 0 on, then the nets that the cells
/// drive, so that cell `c` drives net `inputs + c`.
pub struct Flat {
    /// The number of inputs, at most 4,096.
    pub inputs: u32,
    /// At most 65,536 cells.
    pub cells: Sequence<Cell>,
    /// The nets whose values are the outputs, at most 4,161: the 4,096 of a design at most, and 65 further ones.
    pub outputs: Sequence<u32>,
    ghost few_inputs: { inputs ≤ MOST_INPUTS },
    ghost few_cells: { length cells ≤ MOST_CELLS },
    ghost few_outputs: { length outputs ≤ MOST_OUTPUTS },
    ghost cells_fit: { All (IsWellFormed (inputs + length cells)) cells },
    ghost outputs_fit: { All (λ net. net < inputs + length cells) outputs },
}

impl Drop for Flat {
    fn drop(self) {
        let Flat {
            inputs: _,
            cells: _,
            outputs: _,
        } = self;
    }
}

impl Flat {
    /// The netlist of these cells. It takes no memory.
    pub fn make(inputs: u32, cells: Sequence<Cell>, outputs: Sequence<u32>) -> Self
        requires few_inputs { inputs ≤ MOST_INPUTS }
        requires few_cells { length cells ≤ MOST_CELLS }
        requires few_outputs { length outputs ≤ MOST_OUTPUTS }
        requires cells_fit { All (IsWellFormed (inputs + length cells)) cells }
        requires outputs_fit { All (λ net. net < inputs + length cells) outputs }
        ensures inputs { result.inputs ≡ inputs }
        ensures cells { result.cells ≡ cells }
        ensures outputs { result.outputs ≡ outputs }
    {
        Flat {
            inputs,
            cells,
            outputs,
        }
    }

    /// The number of inputs.
    pub fn inputs(&self) -> u32
        ensures { result ≡ self.now.inputs }
    {
        self.inputs
    }

    /// The cells, by their numbers.
    pub fn cells(&self) -> &[Cell]
        ensures { result.now ≡ self.now.cells }
    {
        self.cells.as_slice()
    }

    /// The nets whose values are the outputs, in order.
    pub fn outputs(&self) -> &[u32]
        ensures { result.now ≡ self.now.outputs }
    {
        self.outputs.as_slice()
    }

    /// The value of each latch before the first clock, in the order of the cells; `unknown` where it is free.
    pub fn start(&self, alloc: Global, unknown: bool) -> Result<Bits, AllocError>
        ensures { IfOk result (λ bits. bits ≡ start_values unknown self.now.cells) }
    {
        let mut bits = Vec::new(alloc);
        for cell in self.cells.as_slice() {
            if let Cell::Latch { init, .. } = cell {
                bits.push(start_value(*init, unknown))?;
            }
        }
        Ok(Bits::of(bits))
    }
}

fn start_value(init: Init, unknown: bool) -> bool
    ensures { result ≡ start_value unknown init }
{
    match init {
        Init::Zero => false,
        Init::One => true,
        Init::Free => unknown,
    }
}

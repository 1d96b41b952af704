//! What works out the clocks of a netlist, so that one writer of traces serves all that do.
ghost use Rattle.std.specs.Prelude.{◌≡◌, ◌<◌, ◌+◌, ◌^◌, length, IfOk};
ghost use Rattle.std.specs.List.{All};
ghost use Rattle.vw_net.specs.Cells.{latch_count};
ghost use Rattle.vw_trace.specs.Engines.{HasWorked, SeenEngine};

use std::alloc::{AllocError, Global};
use vw_net::{Bits, Flat, Rows};

/// What a netlist did in a number of clocks: the outputs of each, and the latch values before its step.
pub struct Batch {
    pub outputs: Rows,
    pub states: Rows,
}

impl Drop for Batch {
    fn drop(self) {
        let Batch {
            outputs: _,
            states: _,
        } = self;
    }
}

/// What works out the clocks of a netlist, batch by batch: a simulator of it, or a board that it was planned on.
pub trait Engine {
    /// Its netlist, and where it stands: the number of the next clock, counted from 0, and the latch values before it.
    ghost seen: { Self → SeenEngine };

    /// The netlist.
    fn flat(&self) -> &Flat
        ensures { result.now ≡ (seen self.now).netlist };

    /// The number of the next clock, counted from 0.
    fn clock(&self) -> u64
        ensures { result ≡ (seen self.now).clock };

    /// The value of each latch before the next clock, in the order of the cells.
    fn state(&self) -> &Bits
        ensures value { result.now ≡ (seen self.now).state }
        ensures latches { length (seen self.now).state ≡ latch_count (seen self.now).netlist.cells };

    /// Works out the next clocks, those of some rows.
    ///
    /// It takes memory for these clocks, all of it before the first. Where there is none, no clock was worked out, and
    /// nothing is known of where it stands.
    fn work_out(&mut self, alloc: Global, rows: Rows) -> Result<Batch, AllocError>
        requires columns { All (λ row. length row ≡ (seen self.old).netlist.inputs) rows }
        requires few { (seen self.old).clock + length rows < 2 ^ 32 }
        ensures netlist { (seen self.new).netlist ≡ (seen self.old).netlist }
        ensures worked { IfOk result (HasWorked (seen self.old) (seen self.new) rows) };
}

//! A netlist that is simulated.
ghost use Rattle.std.specs.Prelude.{◌≡◌, ◌+◌, length, IfOk};
ghost use Rattle.vw_net.specs.Cells.{latch_count};

use crate::batch::run_batch;
use crate::engine::{Batch, Engine};
use std::alloc::{AllocError, Global};
use vw_net::{Bits, Flat, Ordered, Rows};
use vw_sim::Simulator;

/// A simulator, with the latch values before the next clock, a value for each net of its netlist, and how many clocks it has
/// worked out.
pub struct Simulation<'a> {
    pub simulator: Simulator<'a>,
    pub state: Bits,
    pub values: Bits,
    pub done: u64,
    ghost latches: { length state ≡ latch_count simulator.flat.cells },
    ghost nets: { length values ≡ simulator.flat.inputs + length simulator.flat.cells },
}

impl Drop for Simulation<'_> {
    fn drop(self) {
        let Simulation {
            simulator: _,
            state: _,
            values: _,
            done: _,
        } = self;
    }
}

/// A value for each net of a netlist.
fn blank_values(alloc: Global, flat: &Flat) -> Result<Bits, AllocError>
    ensures { IfOk result (λ values. length values ≡ flat.now.inputs + length flat.now.cells) }
{
    let nets = flat.inputs() as usize + flat.cells().len();
    Ok(Bits::of(vec![in alloc; false; nets]?))
}

impl<'a> Simulation<'a> {
    /// The simulation of a netlist with an order before its first clock, where the latches have these values. It takes memory
    /// for the simulator, and for each net.
    pub fn make(alloc: Global, ordered: &'a Ordered, start: Bits) -> Result<Self, AllocError>
        requires { length start ≡ latch_count ordered.now.flat.cells }
        ensures simulator { IfOk result (λ simulation. simulation.simulator ≡ ordered.now) }
        ensures starts { IfOk result (λ simulation. simulation.state ≡ start) }
        ensures unstarted { IfOk result (λ simulation. simulation.done ≡ 0) }
    {
        let simulator = Simulator::make(alloc, ordered)?;
        let values = blank_values(alloc, simulator.flat())?;
        Ok(Simulation {
            simulator,
            state: start,
            values,
            done: 0,
        })
    }
}

impl Engine for Simulation<'_> {
    ghost seen = { λ simulation. record {
      netlist = simulation.simulator.flat;
      clock = simulation.done;
      state = simulation.state;
    } };

    fn flat(&self) -> &Flat {
        self.simulator.flat()
    }

    fn clock(&self) -> u64 {
        self.done
    }

    fn state(&self) -> &Bits {
        &self.state
    }

    fn work_out(&mut self, alloc: Global, rows: Rows) -> Result<Batch, AllocError> {
        let batch = run_batch(
            alloc,
            &self.simulator,
            &rows,
            &mut self.state,
            &mut self.values,
        )?;
        self.done += rows.len() as u64;
        Ok(batch)
    }
}

//! Netlists that are simulated side by side.
ghost use Rattle.std.specs.Prelude.{◌≡◌, ◌+◌, length, IfOk};
ghost use Rattle.vw_net.specs.Cells.{latch_count};

use std::alloc::{AllocError, Global};
use vw_net::{Bits, Flat, Ordered, Rows};
use vw_sim::Simulator;

fn put(told: &mut Vec<bool>, values: &[bool], nets: &[u32]) -> Result<(), AllocError> {
    for net in nets {
        match values.get(*net as usize) {
            Some(bit) => told.push(*bit)?,
            None => {}
        }
    }
    Ok(())
}

/// A value for each net of a netlist.
fn blank(alloc: Global, flat: &Flat) -> Result<Bits, AllocError>
    ensures { IfOk result (λ values. length values ≡ flat.now.inputs + length flat.now.cells) }
{
    let nets = flat.inputs() as usize + flat.cells().len();
    Ok(Bits::of(vec![in alloc; false; nets]?))
}

/// One clock, where the row is as wide as it has to be.
fn clock(simulator: &Simulator, row: &[bool], state: &mut Bits, values: &mut Bits)
    requires latches { length state.old ≡ latch_count simulator.now.flat.cells }
    requires nets { length values.old ≡ simulator.now.flat.inputs + length simulator.now.flat.cells }
    ensures latches { length state.new ≡ latch_count simulator.now.flat.cells }
    ensures nets { length values.new ≡ simulator.now.flat.inputs + length simulator.now.flat.cells }
{
    if row.len() == simulator.flat().inputs() as usize {
        simulator.step(row, state, values);
    }
}

/// The outputs and latch values of all clocks, and the last latch values, one after the other.
pub fn told(
    alloc: Global,
    ordered: &Ordered,
    unknown: bool,
    rows: &Rows,
) -> Result<Vec<bool>, AllocError> {
    let flat = ordered.flat();
    let simulator = Simulator::make(alloc, ordered)?;
    let mut state = flat.start(alloc, unknown)?;
    let mut values = blank(alloc, flat)?;
    let mut told = Vec::new(alloc);
    for place in 0..rows.len() {
        told.extend_from_slice(state.as_slice())?;
        clock(&simulator, rows.row(place), &mut state, &mut values);
        put(&mut told, values.as_slice(), flat.outputs())?;
    }
    told.extend_from_slice(state.as_slice())?;
    Ok(told)
}

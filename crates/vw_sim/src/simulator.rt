//! A netlist whose clocks are worked out many times, with what a clock reads lying in a few arrays.
ghost use Rattle.std.specs.Prelude.{◌≡◌, ◌<◌, ◌≤◌, ◌+◌, ℕ, false, length, slice_index_or, IfOk};
ghost use Rattle.std.specs.List.{All};
ghost use Rattle.vw_net.specs.Cells.{latch_count, latch_inputs};
ghost use Rattle.vw_net.specs.History.{next_state};
ghost use Rattle.vw_net.specs.Value.{net_value};
ghost use Rattle.vw_sim.specs.Steps.Values.{bits_at};
ghost use Rattle.vw_sim.specs.Steps.Simulator.{latch_nets};
ghost use Rattle.vw_net.specs.Steps.WrittenBits.{with_bits};

use crate::clock::put_inputs;
use crate::tables::{Tables, run_tables, tables_of, wide_places};
use std::alloc::{AllocError, Global};
use std::marker::Model;
use vw_net::{Bits, Cell, Flat, Ordered, gates_settle};

/// A netlist with an order, made ready for many clocks: its gates in order, each with the nets that it reads and its truth
/// table; the places of those with more than six inputs; and its latches. Contracts see the netlist with its order.
pub struct Simulator<'a> {
    ordered: &'a Ordered,
    tables: Tables,
    /// The places in the order at which a gate reads more nets than the tables have room for.
    wide: Vec<usize>,
    /// The net of each latch, and the net that it takes its next value from.
    latches: Vec<u32>,
    taken: Vec<u32>,
}

impl Drop for Simulator<'_> {
    fn drop(self) {
        let Simulator {
            ordered: _,
            tables: _,
            wide: _,
            latches: _,
            taken: _,
        } = self;
    }
}

impl<'a> Model for Simulator<'a> {
    ghost use Rattle.vw_net.specs.declared.ordered.Ordered.{Ordered};
    ghost use Rattle.vw_sim.specs.Steps.Simulator.{AreSimulatorTables};

    ghost Value = { Ordered };

    ghost view = { λ simulator. simulator.ordered.now };

    ghost invariant = { λ simulator.
        AreSimulatorTables simulator.ordered.now simulator.tables simulator.wide.items
        simulator.latches.items simulator.taken.items };
}

impl<'a> Simulator<'a> {
    /// The simulator of a netlist with an order. It takes memory for each gate, each net that one reads, and each latch.
    pub fn make(alloc: Global, ordered: &'a Ordered) -> Result<Self, AllocError>
        ensures { IfOk result (λ simulator. simulator ≡ ordered.now) }
    {
        let flat = ordered.flat();
        let tables = tables_of(alloc, ordered)?;
        let wide = wide_places(alloc, ordered, tables.room())?;
        Ok(Simulator {
            ordered,
            tables,
            wide,
            latches: latch_nets(alloc, flat)?,
            taken: taken_nets(alloc, flat)?,
        })
    }

    /// The netlist.
    pub fn flat(&self) -> &'a Flat
        ensures { result.now ≡ self.now.flat }
    {
        self.ordered.flat()
    }

    /// One clock: puts the value of each net into `values`, and the next value of each latch into `state`, all of
    /// them together. It takes no memory.
    pub fn step(&self, inputs: &[bool], state: &mut Bits, values: &mut Bits)
        requires columns { length inputs.now ≡ self.now.flat.inputs }
        requires latches { length state.old ≡ latch_count self.now.flat.cells }
        requires nets { length values.old ≡ self.now.flat.inputs + length self.now.flat.cells }
        ensures values { (net : ℕ) → net < length values.new → slice_index_or values.new net false
            ≡ net_value self.now.flat inputs.now state.old net }
        ensures nets { length values.new ≡ length values.old }
        ensures state { state.new ≡ next_state self.now.flat inputs.now state.old }
    {
        put_inputs(inputs, values);
        put_bits(&self.latches, state, values);
        run_tables(self.ordered, &self.tables, &self.wide, values);
        take_bits(&self.taken, values, state);
        gates_settle();
    }
}

/// The nets of the latches of a netlist.
fn latch_nets(alloc: Global, flat: &Flat) -> Result<Vec<u32>, AllocError>
    ensures { IfOk result (λ nets. nets.items ≡ latch_nets flat.now.inputs flat.now.cells) }
{
    let first = flat.inputs();
    let mut nets = Vec::new(alloc);
    for (number, cell) in flat.cells().iter().enumerate() {
        if let Cell::Latch { .. } = cell {
            nets.push(first + number as u32)?;
        }
    }
    Ok(nets)
}

/// The nets that the latches of a netlist take.
fn taken_nets(alloc: Global, flat: &Flat) -> Result<Vec<u32>, AllocError>
    ensures { IfOk result (λ nets. nets.items ≡ latch_inputs flat.now.cells) }
{
    let mut nets = Vec::new(alloc);
    for cell in flat.cells() {
        if let Cell::Latch { d, .. } = cell {
            nets.push(*d)?;
        }
    }
    Ok(nets)
}

/// Puts bits into the places of some nets.
fn put_bits(nets: &[u32], bits: &Bits, values: &mut Bits)
    requires same { length nets.now ≡ length bits.now }
    requires within { All (λ net. net < length values.old) nets.now }
    ensures { values.new ≡ with_bits nets.now bits.now values.old }
{
    let bits = bits.as_slice();
    for (i, net) in nets.iter().enumerate() {
        values.set(*net as usize, bits[i]);
    }
}

/// Writes the values of some nets over a list of bits.
fn take_bits(nets: &[u32], values: &Bits, bits: &mut Bits)
    requires same { length bits.old ≡ length nets.now }
    requires within { All (λ net. net < length values.now) nets.now }
    ensures { bits.new ≡ bits_at values.now nets.now }
{
    let values = values.as_slice();
    for (i, net) in nets.iter().enumerate() {
        bits.set(i, values[*net as usize]);
    }
}

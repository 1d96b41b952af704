ghost use Rattle.std.specs.Prelude.{◌≡◌, ◌<◌, ◌≤◌, ◌+◌, ◌-◌, ◌++◌, ℕ, false, List, length, take, drop, slice_get, slice_index_or, IsTrue};
ghost use Rattle.std.specs.List.{All};
ghost use Rattle.vw_net.specs.declared.cell.Cell.TheVariants.{Gate};
ghost use Rattle.vw_net.specs.declared.cover.Cover.{Cover};
ghost use Rattle.vw_net.specs.Cells.{latch_count, latch_inputs};
ghost use Rattle.vw_net.specs.Cover.{cover_value};
ghost use Rattle.vw_net.specs.Order.{is_latch};
ghost use Rattle.vw_net.specs.Value.{net_value};
ghost use Rattle.vw_net.specs.History.{next_state};
ghost use Rattle.vw_sim.specs.Steps.Values.{SettlesGates, bits_at, is_no_latch_net};

use vw_net::{Bits, Cell, Cover, Flat, Ordered, gates_settle};

/// One clock: puts the value of each net into `values`, and the next value of each latch into `state`, all of
/// them together. It takes no memory.
pub fn step(ordered: &Ordered, inputs: &[bool], state: &mut Bits, values: &mut Bits)
    requires columns { length inputs.now ≡ ordered.now.flat.inputs }
    requires latches { length state.old ≡ latch_count ordered.now.flat.cells }
    requires nets { length values.old ≡ ordered.now.flat.inputs + length ordered.now.flat.cells }
    ensures values { (net : ℕ) → net < length values.new
        → slice_index_or values.new net false
        ≡ net_value ordered.now.flat inputs.now state.old net }
    ensures nets { length values.new ≡ length values.old }
    ensures state { state.new ≡ next_state ordered.now.flat inputs.now state.old }
{
    let flat = ordered.flat();
    put_inputs(inputs, values);
    put_latches(flat, state, values);
    put_gates(ordered, values);
    move_latches(flat, values, state);
    gates_settle();
}

/// Puts the bit of each input into the place of its net.
pub(crate) fn put_inputs(inputs: &[bool], values: &mut Bits)
    requires { length inputs.now ≤ length values.old }
    ensures { values.new ≡ inputs.now ++ drop (length inputs.now) values.old }
{
    for (net, bit) in inputs.iter().enumerate() {
        values.set(net, *bit);
    }
}

/// Puts the bit of each latch into the place of its net.
fn put_latches(flat: &Flat, state: &Bits, values: &mut Bits)
    requires latches { length state.now ≡ latch_count flat.now.cells }
    requires nets { length values.old ≡ flat.now.inputs + length flat.now.cells }
    ensures nets { length values.new ≡ length values.old }
    ensures latches { (number : ℕ) → IsTrue (is_latch (slice_get flat.now.cells number))
        → slice_index_or values.new (flat.now.inputs + number) false
        ≡ slice_index_or state.now (latch_count (take number flat.now.cells)) false }
    ensures rest { (net : ℕ) → IsTrue (is_no_latch_net flat.now net)
        → slice_index_or values.new net false ≡ slice_index_or values.old net false }
{
    let first = flat.inputs() as usize;
    let mut latch = 0;
    for (number, cell) in flat.cells().iter().enumerate() {
        if let Cell::Latch { .. } = cell {
            values.set(first + number, state.as_slice()[latch]);
            latch += 1;
        }
    }
}

/// Puts the value of each gate into the place of its net, in order.
fn put_gates(ordered: &Ordered, values: &mut Bits)
    requires { length values.old ≡ ordered.now.flat.inputs + length ordered.now.flat.cells }
    ensures nets { length values.new ≡ length values.old }
    ensures values { SettlesGates ordered.now.flat values.old values.new }
{
    let flat = ordered.flat();
    let first = flat.inputs() as usize;
    let cells = flat.cells();
    for number in ordered.order() {
        if let Cell::Gate { ins, cover } = &cells[*number as usize] {
            let bit = gate_value(ins.as_slice(), cover, values);
            values.set(first + *number as usize, bit);
        }
    }
}

/// The value of a table where its inputs are these nets.
pub(crate) fn gate_value(ins: &[u32], cover: &Cover, values: &Bits) -> bool
    requires arity { length ins.now ≡ cover.now.inputs }
    requires within { All (λ net. net < length values.now) ins.now }
    ensures { result ≡ cover_value cover.now (bits_at values.now ins.now) }
{
    let mut bits = [false; 128];
    gather(ins, values, &mut bits);
    cover.value_on(&bits[..ins.len()])
}

/// Puts the values of these nets at the start of `bits`.
fn gather(ins: &[u32], values: &Bits, bits: &mut [bool])
    requires room { length ins.now ≤ length bits.old }
    requires within { All (λ net. net < length values.now) ins.now }
    ensures { take (length ins.now) bits.new ≡ bits_at values.now ins.now }
{
    let all = values.as_slice();
    for (i, net) in ins.iter().enumerate() {
        bits[i] = all[*net as usize];
    }
}

/// Puts the value of the net that each latch takes its next value from into the place of the latch.
fn move_latches(flat: &Flat, values: &Bits, state: &mut Bits)
    requires latches { length state.old ≡ latch_count flat.now.cells }
    requires nets { length values.now ≡ flat.now.inputs + length flat.now.cells }
    ensures { state.new ≡ bits_at values.now (latch_inputs flat.now.cells) }
{
    let all = values.as_slice();
    let mut latch = 0;
    for cell in flat.cells() {
        if let Cell::Latch { d, .. } = cell {
            state.set(latch, all[*d as usize]);
            latch += 1;
        }
    }
}

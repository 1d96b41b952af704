//! The values of gates from slots.
ghost use Rattle.std.specs.Prelude.{◌≡◌, ◌<◌, ◌≤◌, ◌+◌, ◌-◌, length, map, take, slice_get};
ghost use Rattle.std.specs.List.{All, slice_range};
ghost use Rattle.vw_prog.specs.SeenGates.{seen_gate, seen_gates};
ghost use Rattle.vw_net.specs.Cover.{cover_value};
ghost use Rattle.vw_net.specs.TruthTable.{place_of};
ghost use Rattle.vw_node.specs.Fits.{bit_at_slot};
ghost use Rattle.vw_node.specs.Slots.{HasArity, ReadsWithin, wide_by, with_gates};

use vw_net::{Cell, Cover, Flat, bit_of};
use vw_prog::{Gates, TableGate, WideGate};

/// The place of the bits of some slots in a truth table.
fn place_at(reads: &[u32], slots: &[bool]) -> u32
    requires few { length reads.now ≤ 6 }
    requires within { All (λ slot. slot < length slots.now) reads.now }
    ensures place { result ≡ place_of (map (bit_at_slot slots.now) reads.now) }
    ensures below { result < 64 }
{
    let mut place = 0;
    for i in (0..reads.len()).rev() {
        place = place * 2 + slots[reads[i] as usize] as u32;
    }
    place
}

/// Works out gates, one after the other, into slots from one on.
fn run_all<const N: usize>(gates: &[TableGate<N>], first: usize, slots: &mut [bool])
    requires few { N ≤ 6 }
    requires within { All (ReadsWithin (length slots.old)) (map (seen_gate N) gates.now) }
    requires room { first + length gates.now ≤ length slots.old }
    ensures { slots.new ≡ with_gates first (map (seen_gate N) gates.now) slots.old }
{
    for (i, gate) in gates.iter().enumerate() {
        let place = place_at(&gate.reads, slots);
        slots[first + i] = bit_of(gate.truth_table, place);
    }
}

/// The same with the gates from one number up to another.
fn run_part<const N: usize>(
    gates: &[TableGate<N>],
    first: usize,
    end: usize,
    slot: usize,
    slots: &mut [bool],
)
    requires few { N ≤ 6 }
    requires order { first ≤ end }
    requires end { end ≤ length (map (seen_gate N) gates.now) }
    requires within { All (ReadsWithin (length slots.old))
        (slice_range (map (seen_gate N) gates.now) first end) }
    requires room { slot + (end - first) ≤ length slots.old }
    ensures { slots.new
        ≡ with_gates slot (slice_range (map (seen_gate N) gates.now) first end) slots.old }
{
    run_all(&gates[first..end], slot, slots);
}

/// Works out the gates of a node from one number up to another, one after the other, into slots from one on.
pub fn run_gates(gates: &Gates, first: usize, end: usize, slot: usize, slots: &mut [bool])
    requires order { first ≤ end }
    requires end { end ≤ length (seen_gates gates.now) }
    requires within { All (ReadsWithin (length slots.old))
        (slice_range (seen_gates gates.now) first end) }
    requires room { slot + (end - first) ≤ length slots.old }
    ensures { slots.new
        ≡ with_gates slot (slice_range (seen_gates gates.now) first end) slots.old }
{
    match gates {
        Gates::Two(list) => run_part(list, first, end, slot, slots),
        Gates::Four(list) => run_part(list, first, end, slot, slots),
        Gates::Six(list) => run_part(list, first, end, slot, slots),
    }
}

/// Puts the bits of these slots at the start of `bits`.
fn gather(reads: &[u32], slots: &[bool], bits: &mut [bool])
    requires room { length reads.now ≤ length bits.old }
    requires within { All (λ slot. slot < length slots.now) reads.now }
    ensures { take (length reads.now) bits.new ≡ map (bit_at_slot slots.now) reads.now }
{
    for (i, slot) in reads.iter().enumerate() {
        bits[i] = slots[*slot as usize];
    }
}

/// The value of a cover where the bits of its inputs are in these slots.
fn wide_value(reads: &[u32], cover: &Cover, slots: &[bool]) -> bool
    requires arity { length reads.now ≡ cover.now.inputs }
    requires within { All (λ slot. slot < length slots.now) reads.now }
    ensures { result ≡ cover_value cover.now (map (bit_at_slot slots.now) reads.now) }
{
    let mut bits = [false; 128];
    gather(reads, slots, &mut bits);
    cover.value_on(&bits[..reads.len()])
}

/// The value of a gate of more than six inputs.
pub fn wide_bit(flat: &Flat, gate: &WideGate, slots: &[bool]) -> bool
    requires arity { HasArity (slice_get flat.now.cells gate.now.number) gate.now.reads }
    requires within { All (λ slot. slot < length slots.now) gate.now.reads }
    ensures { result ≡ wide_by (slice_get flat.now.cells gate.now.number) slots.now gate.now.reads }
{
    match flat.cells().get(gate.number as usize) {
        Some(Cell::Gate { cover, .. }) => wide_value(gate.reads.as_slice(), cover, slots),
        Some(Cell::Latch { .. }) => false,
        None => false,
    }
}

//! One clock in 64 lanes.
ghost use Rattle.std.specs.Prelude.{◌≡◌, ◌<◌, ◌≤◌, ◌+◌, ℕ, false, length, take, map, slice_get, slice_index_or, IsTrue};
ghost use Rattle.vw_net.specs.Cells.{latch_count, latch_inputs};
ghost use Rattle.vw_net.specs.Order.{is_latch};
ghost use Rattle.vw_net.specs.FoundValue.{found_value};
ghost use Rattle.vw_net.specs.TruthTable.{bit_of};
ghost use Rattle.vw_fault.specs.Found.{found_next_state};
ghost use Rattle.vw_fault.specs.Steps.Lanes.{find_in, is_no_latch_net, lane_bits, SettlesLanes};

use crate::gate::gate_word;
use crate::stuck::Stuck;
use crate::words::{Words, spread};
use vw_net::{Cell, Flat, Ordered, found_gates_settle};

/// One clock in each lane: puts what is found of each net into `words`, and the next value of each latch into `state`, all of
/// them together. It takes no memory.
pub fn clock(ordered: &Ordered, stuck: &Stuck, row: &[bool], state: &mut Words, words: &mut Words)
    requires columns { length row.now ≡ ordered.now.flat.inputs }
    requires latches { length state.old ≡ latch_count ordered.now.flat.cells }
    requires nets { length words.old ≡ ordered.now.flat.inputs + length ordered.now.flat.cells }
    requires kept { length stuck.now.kept ≡ length words.old }
    requires forced { length stuck.now.forced ≡ length words.old }
    ensures nets { length words.new ≡ length words.old }
    ensures words { (lane : ℕ) → lane < 64 → (net : ℕ) → net < length words.new
        → slice_index_or (lane_bits lane words.new) net false
        ≡ found_value (find_in stuck.now lane) ordered.now.flat row.now (lane_bits lane state.old) net }
    ensures latches { length state.new ≡ length state.old }
    ensures state { (lane : ℕ) → lane < 64 → lane_bits lane state.new
        ≡ found_next_state (find_in stuck.now lane) ordered.now.flat row.now (lane_bits lane state.old) }
{
    let flat = ordered.flat();
    put_inputs(stuck, row, words);
    put_latches(flat, stuck, state, words);
    put_gates(ordered, stuck, words);
    move_latches(flat, words, state);
    found_gates_settle();
}

/// Puts what is found of each input into the place of its net.
fn put_inputs(stuck: &Stuck, row: &[bool], words: &mut Words)
    requires nets { length row.now ≤ length words.old }
    requires kept { length stuck.now.kept ≡ length words.old }
    requires forced { length stuck.now.forced ≡ length words.old }
    ensures nets { length words.new ≡ length words.old }
    ensures inputs { (lane : ℕ) → lane < 64 → (net : ℕ) → net < length row.now
        → slice_index_or (lane_bits lane words.new) net false
        ≡ find_in stuck.now lane net (slice_index_or row.now net false) }
{
    for (net, bit) in row.iter().enumerate() {
        words.set(net, stuck.found(net, spread(*bit)));
    }
}

/// Puts what is found of each latch into the place of its net.
fn put_latches(flat: &Flat, stuck: &Stuck, state: &Words, words: &mut Words)
    requires latches { length state.now ≡ latch_count flat.now.cells }
    requires nets { length words.old ≡ flat.now.inputs + length flat.now.cells }
    requires kept { length stuck.now.kept ≡ length words.old }
    requires forced { length stuck.now.forced ≡ length words.old }
    ensures nets { length words.new ≡ length words.old }
    ensures latches { (lane : ℕ) → lane < 64 → (number : ℕ)
        → IsTrue (is_latch (slice_get flat.now.cells number))
        → slice_index_or (lane_bits lane words.new) (flat.now.inputs + number) false
        ≡ find_in stuck.now lane (flat.now.inputs + number)
        (slice_index_or (lane_bits lane state.now) (latch_count (take number flat.now.cells)) false) }
    ensures rest { (lane : ℕ) → lane < 64 → (net : ℕ) → IsTrue (is_no_latch_net flat.now net)
        → slice_index_or (lane_bits lane words.new) net false
        ≡ slice_index_or (lane_bits lane words.old) net false }
{
    let first = flat.inputs() as usize;
    let mut latch = 0;
    for (number, cell) in flat.cells().iter().enumerate() {
        if let Cell::Latch { .. } = cell {
            words.set(
                first + number,
                stuck.found(first + number, state.get(latch)),
            );
            latch += 1;
        }
    }
}

/// Puts what is found of each gate into the place of its net, in order.
fn put_gates(ordered: &Ordered, stuck: &Stuck, words: &mut Words)
    requires nets { length words.old ≡ ordered.now.flat.inputs + length ordered.now.flat.cells }
    requires kept { length stuck.now.kept ≡ length words.old }
    requires forced { length stuck.now.forced ≡ length words.old }
    ensures nets { length words.new ≡ length words.old }
    ensures values { SettlesLanes ordered.now.flat stuck.now words.old words.new }
{
    let flat = ordered.flat();
    let first = flat.inputs() as usize;
    let cells = flat.cells();
    for number in ordered.order() {
        if let Cell::Gate { ins, cover } = &cells[*number as usize] {
            let net = first + *number as usize;
            let word = gate_word(cover, ins.as_slice(), words);
            words.set(net, stuck.found(net, word));
        }
    }
}

/// Puts the word of the net that each latch takes its next value from into the place of the latch.
fn move_latches(flat: &Flat, words: &Words, state: &mut Words)
    requires latches { length state.old ≡ latch_count flat.now.cells }
    requires nets { length words.now ≡ flat.now.inputs + length flat.now.cells }
    ensures { state.new ≡ map (λ net. slice_index_or words.now net 0) (latch_inputs flat.now.cells) }
{
    let mut latch = 0;
    for cell in flat.cells() {
        if let Cell::Latch { d, .. } = cell {
            state.set(latch, words.get(*d as usize));
            latch += 1;
        }
    }
}

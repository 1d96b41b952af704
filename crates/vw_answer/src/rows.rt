//! Rows of all latches, filled by the nodes of the latches.
ghost use Rattle.std.specs.Prelude.{◌≡◌, ◌<◌, ℕ, length, map, slice_index_or, slice_set, []};
ghost use Rattle.std.specs.List.{All};
ghost use Rattle.vw_node.specs.Fits.{bit_at_slot};
ghost use Rattle.vw_answer.specs.Latches.{with_latches};

use vw_net::{Bits, Rows};
use vw_node::Node;

/// Puts bits into the row of a clock, each at its number.
fn put_latches(numbers: &[u32], bits: &[bool], latches: &mut Rows, clock: usize)
    requires clock { clock < length latches.old }
    requires within { All (λ number. number < length (slice_index_or latches.old clock []))
        numbers.now }
    requires bits { length bits.now ≡ length numbers.now }
    ensures { latches.new ≡ slice_set latches.old clock
        (with_latches numbers.now bits.now (slice_index_or latches.old clock [])) }
{
    for (i, number) in numbers.iter().enumerate() {
        latches.set(clock, *number as usize, bits[i]);
    }
}

/// Puts the latches that a node has recorded into the rows of all latches.
pub fn put_recorded(node: &Node<'_>, latches: &mut Rows)
    requires within { All (λ row. All (λ number. number < length row)
        node.now.code.now.numbers.items) latches.old }
    requires bits { All (λ bits. length bits ≡ length node.now.code.now.numbers.items)
        node.now.rows }
    requires clocks { length node.now.rows ≡ length latches.old }
    ensures count { length latches.new ≡ length latches.old }
    ensures each { (clock : ℕ) → clock < length latches.new → slice_index_or latches.new clock []
        ≡ with_latches node.now.code.now.numbers.items
        (slice_index_or node.now.rows clock [])
        (slice_index_or latches.old clock []) }
{
    let rows = node.rows();
    for clock in 0..rows.len() {
        put_latches(node.numbers(), rows.row(clock), latches, clock);
    }
}

/// Puts the bits that the latches of a node have now into a row of all latches.
pub fn put_present(node: &Node<'_>, row: &mut Bits)
    requires within { All (λ number. number < length row.old) node.now.code.now.numbers.items }
    requires latches { length node.now.code.now.latches.items
        ≡ length node.now.code.now.numbers.items }
    ensures { row.new ≡ with_latches node.now.code.now.numbers.items
        (map (bit_at_slot node.now.slots.items) node.now.code.now.latches.items) row.old }
{
    for (i, number) in node.numbers().iter().enumerate() {
        row.set(*number as usize, node.latch_bit(i));
    }
}

//! Bits that go between rows and slots.
ghost use Rattle.std.specs.Prelude.{◌≡◌, ◌<◌, Some, length, map};
ghost use Rattle.std.specs.List.{All};
ghost use Rattle.vw_node.specs.Fits.{bit_at_slot};
ghost use Rattle.vw_net.specs.Steps.WrittenBits.{with_bits};
ghost use Rattle.vw_node.specs.Slots.{row_at, with_row};

use vw_prog::Share;

/// Puts the bits of these slots into a list.
pub fn take_bits(reads: &[u32], slots: &[bool], bits: &mut [bool])
    requires long { length bits.old ≡ length reads.now }
    requires within { All (λ slot. slot < length slots.now) reads.now }
    ensures { bits.new ≡ map (bit_at_slot slots.now) reads.now }
{
    for (i, slot) in reads.iter().enumerate() {
        bits[i] = slots[*slot as usize];
    }
}

/// Puts bits into slots.
pub fn put_bits(targets: &[u32], bits: &[bool], slots: &mut [bool])
    requires same { length targets.now ≡ length bits.now }
    requires within { All (λ slot. slot < length slots.old) targets.now }
    ensures { slots.new ≡ with_bits targets.now bits.now slots.old }
{
    for (i, slot) in targets.iter().enumerate() {
        slots[*slot as usize] = bits[i];
    }
}

/// Puts a row into the first slots, as far as there are some.
fn put_first(row: &[bool], slots: &mut [bool])
    ensures { slots.new ≡ with_row (Some row.now) slots.old }
{
    let count = row.len().min(slots.len());
    for i in 0..count {
        slots[i] = row[i];
    }
}

/// Puts the row of a clock into the first slots, where the node has rows and there is one.
pub fn put_inputs(share: &Share, clock: u64, slots: &mut [bool])
    ensures { slots.new ≡ with_row (row_at share.now clock) slots.old }
{
    if let Some(rows) = share.rows {
        if (clock as usize) < rows.len() {
            put_first(rows.row(clock as usize), slots);
        }
    }
}

//! The row of a clock.
ghost use Rattle.std.specs.Prelude.{◌≡◌, ◌≤◌, ◌<◌, ◌+◌, ◌^◌, ◌++◌, drop, length, take};

use vw_net::Bits;

/// Writes bits over those of a row, from a place on.
fn put_bits(bits: &[bool], at: usize, row: &mut Bits)
    requires inside { at + length bits.now ≤ length row.old }
    requires few { length row.old < 2 ^ 32 }
    ensures { row.new ≡ take at row.old ++ (bits.now ++ drop (length bits.now) (drop at row.old)) }
{
    for (i, bit) in bits.iter().enumerate() {
        row.set(at + i, *bit);
    }
}

/// Writes outputs and latch values over a row. It takes no memory.
pub(crate) fn put_signals(outputs: &[bool], state: &[bool], row: &mut Bits)
    requires wide { length row.old ≡ length outputs.now + length state.now }
    requires few { length row.old < 2 ^ 32 }
    ensures { row.new ≡ outputs.now ++ state.now }
{
    put_bits(outputs, 0, row);
    put_bits(state, outputs.len(), row);
}

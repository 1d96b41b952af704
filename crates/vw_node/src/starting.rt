//! A node before its first action.
ghost use Rattle.std.specs.Prelude.{◌≡◌, false, length, map, replicate, IfOk};
ghost use Rattle.vw_node.specs.Fits.{bit_at_slot};
ghost use Rattle.vw_net.specs.Steps.WrittenBits.{with_bits};
ghost use Rattle.vw_node.specs.Slots.{NamesSlots, row_at, with_row};

use crate::bits::{put_bits, put_inputs};
use std::alloc::{AllocError, Global};
use vw_prog::{Code, Share};

/// Puts the start bits of latches, by their numbers, into a list.
fn take_starts(numbers: &[u32], start: &[bool], bits: &mut [bool])
    requires { length bits.old ≡ length numbers.now }
    ensures { bits.new ≡ map (bit_at_slot start.now) numbers.now }
{
    for (i, number) in numbers.iter().enumerate() {
        bits[i] = match start.get(*number as usize) {
            Some(bit) => *bit,
            None => false,
        };
    }
}

/// The slots at the start: the host's inputs have the first row, latches have their start bits, and all others are 0.
pub fn start_slots(alloc: Global, share: &Share, code: &Code) -> Result<Vec<bool>, AllocError>
    requires { NamesSlots (length code.now.nets.items) code.now }
    ensures { IfOk result (λ slots. slots.items ≡ with_bits code.now.latches.items
        (map (bit_at_slot share.now.start.now) code.now.numbers.items)
        (with_row (row_at share.now 0) (replicate (length code.now.nets.items) false))) }
{
    let mut slots = vec![in alloc; false; code.nets.len()]?;
    let mut starts = vec![in alloc; false; code.latches.len()]?;
    take_starts(&code.numbers, share.start.as_slice(), &mut starts);
    put_inputs(share, 0, &mut slots);
    put_bits(&code.latches, &starts, &mut slots);
    Ok(slots)
}

//! What texts are printed of. None of it takes memory but that of the text.
ghost use Rattle.std.specs.Prelude.{◌≡◌, ◌++◌, OnOk};
ghost use Rattle.vw_text.specs.Printed.{bits_text};

use itoa::{Buffer, Integer};
use std::alloc::AllocError;

/// Appends a number in decimal digits.
pub fn push_number<N: Integer>(text: &mut Vec<u8>, number: N) -> Result<(), AllocError>
    ensures { OnOk result (text.new.items ≡ text.old.items ++ N.text number) }
{
    let mut buffer = Buffer::new();
    text.extend_from_slice(buffer.format(number).as_bytes())?;
    Ok(())
}

/// Appends one character for each bit, or `-` where there is none.
pub fn push_bits(text: &mut Vec<u8>, bits: &[bool]) -> Result<(), AllocError>
    ensures { OnOk result (text.new.items ≡ text.old.items ++ bits_text bits.now) }
{
    if bits.is_empty() {
        return Ok(text.push(b'-')?);
    }
    for bit in bits {
        text.push(if *bit { b'1' } else { b'0' })?;
    }
    Ok(())
}

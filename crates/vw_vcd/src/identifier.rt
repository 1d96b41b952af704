//! Identifiers of signals.
ghost use Rattle.std.specs.Prelude.{◌≡◌, ◌++◌, OnOk};
ghost use Rattle.vw_vcd.specs.Identifiers.{identifier};

use std::alloc::AllocError;

/// Appends the identifier of the signal with a number.
pub(crate) fn push_identifier(text: &mut Vec<u8>, number: u32) -> Result<(), AllocError>
    ensures { OnOk result (text.new.items ≡ text.old.items ++ identifier number) }
{
    let mut left = number;
    text.push(33 + (left % 94) as u8)?;
    while left >= 94 {
        left /= 94;
        text.push(33 + (left % 94) as u8)?;
    }
    Ok(())
}

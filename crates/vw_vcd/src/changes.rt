//! The lines of values.
ghost use Rattle.std.specs.Prelude.{◌≡◌, ◌<◌, ◌++◌, ◌∷◌, ◌^◌, [], length, OnOk};
ghost use Rattle.vw_text.specs.Physical.{lines_text};
ghost use Rattle.vw_vcd.specs.Changes.{differs, has_any, of_changed, of_each};
ghost use Rattle.vw_vcd.specs.Lines.{value_line};

use crate::identifier::push_identifier;
use std::alloc::AllocError;

/// Whether two values are different ones.
fn differs(old: bool, bit: bool) -> bool
    ensures { result ≡ differs old bit }
{
    old != bit
}

/// Appends the line of the value of a signal.
fn push_value(text: &mut Vec<u8>, number: u32, bit: bool) -> Result<(), AllocError>
    ensures { OnOk result (text.new.items ≡ text.old.items ++ (value_line number bit ++ 10 ∷ [])) }
{
    text.push(if bit { b'1' } else { b'0' })?;
    push_identifier(text, number)?;
    text.push(b'\n')?;
    Ok(())
}

/// Appends the line of each value.
pub(crate) fn push_values(text: &mut Vec<u8>, bits: &[bool]) -> Result<(), AllocError>
    requires { length bits.now < 2 ^ 32 }
    ensures { OnOk result (text.new.items ≡ text.old.items ++ lines_text (of_each value_line 0 bits.now)) }
{
    for (number, bit) in bits.iter().enumerate() {
        push_value(text, number as u32, *bit)?;
    }
    Ok(())
}

/// Whether any value differs from the one before. It looks no further than at the first that does.
pub(crate) fn has_change(before: &[bool], bits: &[bool]) -> bool
    requires { length before.now ≡ length bits.now }
    ensures { result ≡ has_any (of_changed value_line 0 before.now bits.now) }
{
    for (number, bit) in bits.iter().enumerate() {
        if differs(before[number], *bit) {
            return true;
        }
    }
    false
}

/// Appends the line of each value that differs from the one before.
pub(crate) fn push_changes(
    text: &mut Vec<u8>,
    before: &[bool],
    bits: &[bool],
) -> Result<(), AllocError>
    requires same { length before.now ≡ length bits.now }
    requires few { length bits.now < 2 ^ 32 }
    ensures { OnOk result (text.new.items
        ≡ text.old.items ++ lines_text (of_changed value_line 0 before.now bits.now)) }
{
    for (number, bit) in bits.iter().enumerate() {
        if differs(before[number], *bit) {
            push_value(text, number as u32, *bit)?;
        }
    }
    Ok(())
}

//! The lines before the first clock.
ghost use Rattle.std.specs.Prelude.{◌≡◌, ◌<◌, ◌++◌, ◌∷◌, ◌^◌, [], length, IfOk, OnOk};
ghost use Rattle.vw_text.specs.Physical.{lines_text};
ghost use Rattle.vw_vcd.specs.Lines.{lines_of_head, name_byte, signal_name, var_line, var_lines};

use crate::identifier::push_identifier;
use std::alloc::{AllocError, Global};
use vw_outside::Name;

/// A byte of a name: ASCII letters, digits and `_` stay, and any other byte is `_`.
fn name_byte(byte: u8) -> u8
    ensures { result ≡ name_byte byte }
{
    if byte.is_ascii_alphanumeric() || byte == b'_' {
        byte
    } else {
        b'_'
    }
}

/// Appends what a viewer calls the signal with a printed net.
fn push_name(text: &mut Vec<u8>, net: &[u8]) -> Result<(), AllocError>
    ensures { OnOk result (text.new.items ≡ text.old.items ++ signal_name net.now) }
{
    text.extend_from_slice(b"n_")?;
    for byte in net {
        text.push(name_byte(*byte))?;
    }
    Ok(())
}

/// Appends the line that declares a signal.
fn push_var(text: &mut Vec<u8>, number: u32, net: &[u8]) -> Result<(), AllocError>
    ensures { OnOk result (text.new.items ≡ text.old.items ++ (var_line number net.now ++ 10 ∷ [])) }
{
    text.extend_from_slice(b"$var wire 1 ")?;
    push_identifier(text, number)?;
    text.push(b' ')?;
    push_name(text, net)?;
    text.extend_from_slice(b" $end\n")?;
    Ok(())
}

/// Appends the line of each signal.
fn push_vars(text: &mut Vec<u8>, nets: &[Name]) -> Result<(), AllocError>
    requires { length nets.now < 2 ^ 32 }
    ensures { OnOk result (text.new.items ≡ text.old.items ++ lines_text (var_lines 0 nets.now)) }
{
    for (number, net) in nets.iter().enumerate() {
        push_var(text, number as u32, net.as_slice())?;
    }
    Ok(())
}

/// The lines before the first clock: the unit, which stands for one clock and for no duration, and each signal with its
/// identifier and its name. `names` are the printed nets of the signals, in order; two of them may have one name, and their
/// identifiers differ. It takes memory for the text.
pub fn head(alloc: Global, names: &[Name]) -> Result<Vec<u8>, AllocError>
    requires { length names.now < 2 ^ 32 }
    ensures { IfOk result (λ text. text.items ≡ lines_text (lines_of_head names.now)) }
{
    let mut text = Vec::new(alloc);
    text.extend_from_slice(b"$timescale 1 s $end\n$scope module design $end\n")?;
    push_vars(&mut text, names)?;
    text.extend_from_slice(b"$upscope $end\n$enddefinitions $end\n")?;
    Ok(text)
}

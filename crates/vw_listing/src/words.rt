//! The words of a line.
ghost use Rattle.std.specs.Prelude.{◌≡◌, ◌++◌, ◌∷◌, OnOk};
ghost use Rattle.vw_listing.specs.Netlist.{number_words, net_words};

use std::alloc::AllocError;
use vw_text::push_number;

/// Appends numbers, each behind a space.
pub fn push_numbers(text: &mut Vec<u8>, numbers: &[u32]) -> Result<(), AllocError>
    ensures { OnOk result (text.new.items ≡ text.old.items ++ number_words numbers.now) }
{
    for number in numbers {
        text.push(b' ')?;
        push_number(text, *number)?;
    }
    Ok(())
}

/// Appends what a net is, its number and its name, with a space between them.
pub fn push_net(text: &mut Vec<u8>, kind: &[u8], net: u32, name: &[u8]) -> Result<(), AllocError>
    ensures { OnOk result (text.new.items ≡ text.old.items ++ net_words kind.now net name.now) }
{
    text.extend_from_slice(kind)?;
    text.push(b' ')?;
    push_number(text, net)?;
    text.push(b' ')?;
    text.extend_from_slice(name)?;
    Ok(())
}

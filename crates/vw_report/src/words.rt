//! Lines of words and numbers.
ghost use Rattle.std.specs.Prelude.{◌≡◌, ◌++◌, ◌∷◌, [], OnOk, slice_index_or};
ghost use Rattle.vw_listing.specs.Netlist.{number_words};
ghost use Rattle.vw_report.specs.Report.{name_of, net_line, number_line};

use std::alloc::AllocError;
use vw_outside::Name;
use vw_text::push_number;

/// Appends numbers, each behind a space.
pub fn push_numbers(text: &mut Vec<u8>, numbers: &[u64]) -> Result<(), AllocError>
    ensures { OnOk result (text.new.items ≡ text.old.items ++ number_words numbers.now) }
{
    for number in numbers {
        text.push(b' ')?;
        push_number(text, *number)?;
    }
    Ok(())
}

/// Appends a line of a word and numbers.
pub fn push_line(text: &mut Vec<u8>, kind: &[u8], numbers: &[u64]) -> Result<(), AllocError>
    ensures { OnOk result (text.new.items
        ≡ text.old.items ++ (number_line kind.now numbers.now ++ 10 ∷ [])) }
{
    text.extend_from_slice(kind)?;
    push_numbers(text, numbers)?;
    text.push(b'\n')?;
    Ok(())
}

/// Appends a line of a word, the name of a net, and numbers.
pub fn push_net_line(
    text: &mut Vec<u8>,
    kind: &[u8],
    name: &[u8],
    numbers: &[u64],
) -> Result<(), AllocError>
    ensures { OnOk result (text.new.items
        ≡ text.old.items ++ (net_line kind.now name.now numbers.now ++ 10 ∷ [])) }
{
    text.extend_from_slice(kind)?;
    text.push(b' ')?;
    text.extend_from_slice(name)?;
    push_numbers(text, numbers)?;
    text.push(b'\n')?;
    Ok(())
}

/// The name of a net; none past the last one.
pub fn name_of(names: &[Name], net: u32) -> &[u8]
    ensures { result.now ≡ name_of names.now net }
{
    match names.get(net as usize) {
        Some(name) => name.as_slice(),
        None => b"",
    }
}

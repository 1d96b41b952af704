//! Numbers and names, as they stand in the text.
ghost use Rattle.std.specs.Prelude.{◌≡◌, ◌++◌, ◌∷◌, OnOk};
ghost use Rattle.std.specs.Fmt.{decimal};

use std::alloc::AllocError;
use vw_text::push_number;

/// Appends a byte, a letter and a number.
pub(crate) fn push_one(
    text: &mut Vec<u8>,
    before: u8,
    letter: u8,
    number: u64,
) -> Result<(), AllocError>
    ensures { OnOk result (text.new.items ≡ text.old.items ++ before ∷ letter ∷ decimal number) }
{
    text.push(before)?;
    text.push(letter)?;
    push_number(text, number)
}

/// Appends a byte, a letter and two numbers.
pub(crate) fn push_two(
    text: &mut Vec<u8>,
    before: u8,
    letter: u8,
    first: u64,
    second: u64,
) -> Result<(), AllocError>
    ensures { OnOk result (text.new.items
        ≡ text.old.items ++ before ∷ letter ∷ (decimal first ++ 95 ∷ decimal second)) }
{
    push_one(text, before, letter, first)?;
    text.push(b'_')?;
    push_number(text, second)
}

/// Appends a byte, a letter and three numbers.
pub(crate) fn push_three(
    text: &mut Vec<u8>,
    before: u8,
    letter: u8,
    first: u64,
    second: u64,
    third: u64,
) -> Result<(), AllocError>
    ensures { OnOk result (text.new.items
        ≡ text.old.items ++ before ∷ letter ∷ (decimal first ++ 95 ∷ (decimal second ++ 95 ∷ decimal third))) }
{
    push_two(text, before, letter, first, second)?;
    text.push(b'_')?;
    push_number(text, third)
}

//! What is found, written plainly as a text.
use std::alloc::{AllocError, Global};
use vw_outside::Name;

/// A name with these bytes.
pub fn name(alloc: Global, bytes: &[u8]) -> Result<Name, AllocError> {
    Ok(Name::of(bytes.to_vec(alloc)?))
}

/// Adds a number.
pub fn add_number(alloc: Global, text: &mut Vec<u8>, number: u64) -> Result<(), AllocError> {
    let digits = number.to_string(alloc)?;
    text.extend_from_slice(digits.as_bytes())
}

/// Adds words, each behind a blank.
pub fn add_words(text: &mut Vec<u8>, words: &[Name]) -> Result<(), AllocError> {
    for word in words {
        add_behind(text, b' ', word.as_slice())?;
    }
    Ok(())
}

/// Adds a sign, and these bytes behind it.
pub fn add_behind(text: &mut Vec<u8>, sign: u8, bytes: &[u8]) -> Result<(), AllocError> {
    text.push(sign)?;
    text.extend_from_slice(bytes)
}

/// Adds numbers, each behind a blank.
pub fn add_numbers(alloc: Global, text: &mut Vec<u8>, numbers: &[u32]) -> Result<(), AllocError> {
    for number in numbers {
        text.push(b' ')?;
        add_number(alloc, text, u64::from(*number))?;
    }
    Ok(())
}

/// Adds a title, and numbers behind it, each behind a blank.
pub fn add_list(
    alloc: Global,
    text: &mut Vec<u8>,
    title: &[u8],
    numbers: &[u32],
) -> Result<(), AllocError> {
    text.extend_from_slice(title)?;
    add_numbers(alloc, text, numbers)
}

/// Adds numbers, each behind a blank, with `-` for none.
pub fn add_options(
    alloc: Global,
    text: &mut Vec<u8>,
    numbers: &[Option<u32>],
) -> Result<(), AllocError> {
    for number in numbers {
        text.push(b' ')?;
        add_option(alloc, text, *number)?;
    }
    Ok(())
}

/// Adds a number, or `-`.
pub fn add_option(
    alloc: Global,
    text: &mut Vec<u8>,
    number: Option<u32>,
) -> Result<(), AllocError> {
    match number {
        Some(number) => add_number(alloc, text, u64::from(number)),
        None => text.extend_from_slice(b"-"),
    }
}

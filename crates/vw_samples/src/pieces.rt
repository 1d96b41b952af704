//! Texts that are spelled in pieces.
use std::alloc::{AllocError, Global};
use std::test::Fail;

/// So many times a text, in which `#` stands for the number of times before, `+` for the next number, and `~` for the
/// number of times that are left, with this one.
pub type Piece<'a> = (u32, &'a str);

fn push_number(text: &mut String, number: u32) -> Result<(), AllocError> {
    let digits = format!(in *text.allocator(); "{number}")?;
    text.push_str(digits.as_str())
}

/// Adds the text of a piece for once, where there were so many times before it, and there are so many left.
pub fn push_form(text: &mut String, form: &str, before: u32, left: u32) -> Result<(), AllocError> {
    for letter in form.chars() {
        match letter {
            '#' => push_number(text, before)?,
            '+' => push_number(text, before.saturating_add(1))?,
            '~' => push_number(text, left)?,
            _ => text.push(letter)?,
        }
    }
    Ok(())
}

fn push_numbered(text: &mut String, count: u32, form: &str) -> Result<(), AllocError> {
    for before in 0..count {
        push_form(text, form, before, count.saturating_sub(before))?;
    }
    Ok(())
}

fn push_again(text: &mut String, count: u32, form: &str) -> Result<(), AllocError> {
    for _ in 0..count {
        text.push_str(form)?;
    }
    Ok(())
}

/// Whether a form is spelled in the same way each time.
fn is_plain(form: &str) -> bool {
    for letter in form.as_bytes() {
        if matches!(letter, b'#' | b'+' | b'~') {
            return false;
        }
    }
    true
}

fn push_piece(text: &mut String, count: u32, form: &str) -> Result<(), AllocError> {
    if is_plain(form) {
        push_again(text, count, form)
    } else {
        push_numbered(text, count, form)
    }
}

/// The text that these pieces spell.
pub fn spelled(alloc: Global, pieces: &[Piece]) -> Result<String, AllocError> {
    let mut text = String::new(alloc);
    for (count, form) in pieces {
        push_piece(&mut text, *count, form)?;
    }
    Ok(text)
}

/// The text that these pieces spell, so many times.
pub fn repeated(alloc: Global, times: u32, pieces: &[Piece]) -> Result<String, AllocError> {
    let text = spelled(alloc, pieces)?;
    let mut texts = String::new(alloc);
    push_again(&mut texts, times, text.as_str())?;
    Ok(texts)
}

/// Fails unless a text that is spelled in pieces, so many times, begins and ends in this way, and has so many bytes.
pub fn is_spelled(
    alloc: Global,
    times: u32,
    pieces: &[Piece],
    begin: &str,
    end: &str,
    length: usize,
) -> Result<(), Fail> {
    let text = repeated(alloc, times, pieces)?;
    let text = text.as_bytes();
    if !text.starts_with(begin.as_bytes()) {
        return Err("another beginning".into());
    }
    if !text.ends_with(end.as_bytes()) {
        return Err("another end".into());
    }
    if text.len() != length {
        return Err("another length".into());
    }
    Ok(())
}

//! Rows of tables.
ghost use Rattle.std.specs.Prelude.{◌≡◌, map, IfOk};
ghost use Rattle.std.specs.List.{list_all};
ghost use Rattle.vw_blif.specs.Rows.{is_mark, mark_of_byte, is_value, is_row_of, row_marks};

use crate::copies::is;
use std::alloc::{AllocError, Global};
use vw_net::{Mark, Sequence};
use vw_outside::Name;

/// What a character of a row asks of its input.
fn mark_of_byte(byte: u8) -> Mark
    ensures { result ≡ mark_of_byte byte }
{
    match byte {
        b'0' => Mark::Zero,
        b'1' => Mark::One,
        _ => Mark::Any,
    }
}

/// Whether a byte is a character of a row.
fn is_mark(byte: u8) -> bool
    ensures { result ≡ is_mark byte }
{
    byte == b'0' || byte == b'1' || byte == b'-'
}

/// Whether a word is the value of a row.
fn is_value(word: &[u8]) -> bool
    ensures { result ≡ is_value word.now }
{
    is(word, b"0") || is(word, b"1")
}

/// Whether each byte of a word is a character of a row.
fn are_marks(word: &[u8]) -> bool
    ensures { result ≡ list_all is_mark word.now }
{
    for byte in word {
        if !is_mark(*byte) {
            return false;
        }
    }
    true
}

/// The marks of the characters of a word.
fn marks_of_word(alloc: Global, word: &[u8]) -> Result<Vec<Mark>, AllocError>
    ensures { IfOk result (λ marks. marks.items ≡ map mark_of_byte word.now) }
{
    word.iter().map(|byte| mark_of_byte(*byte)).collect(alloc)
}

/// Whether words are a row of a table with so many inputs.
pub fn is_row_of(width: usize, words: &[Name]) -> bool
    ensures { result ≡ is_row_of width words.now }
{
    match words {
        [value] => width == 0 && is_value(value.as_slice()),
        [marks, value] => {
            width > 0
                && marks.as_slice().len() == width
                && are_marks(marks.as_slice())
                && is_value(value.as_slice())
        }
        _ => false,
    }
}

/// The marks of a row.
pub fn row_marks(alloc: Global, words: &[Name]) -> Result<Sequence<Mark>, AllocError>
    ensures { IfOk result (λ marks. marks ≡ row_marks words.now) }
{
    match words {
        [marks, _, ..] => Ok(Sequence::of(marks_of_word(alloc, marks.as_slice())?)),
        _ => Ok(Sequence::of(Vec::new(alloc))),
    }
}

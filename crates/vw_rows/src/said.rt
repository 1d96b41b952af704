//! What the words of a line say, byte by byte.
ghost use Rattle.std.specs.Prelude.{◌≡◌, ◌==◌, ◌||◌, ◌-◌, Some, None, if◌then◌else◌};
ghost use Rattle.vw_text.specs.Number.{is_digit};
ghost use Rattle.vw_rows.specs.Steps.Saying.{GoesOn, EndsWord, TakesByte};

use crate::limits::MOST_CLOCKS;
use vw_text::is_blank;

/// What the words of a line say so far, as long as some line begins with them.
#[derive(Clone, Copy)]
pub enum Said {
    /// No word.
    Nothing,
    /// A word of so many `0` and `1`, which may go on.
    Bits(u64),
    /// The word `-`, which may go on.
    Dash,
    /// A word that spells a row of so many bits, and a blank.
    Row(u64),
    /// So many letters of the word `hold`.
    Letters(usize),
    /// The word `hold`, and a blank.
    Hold,
    /// `hold` and a number, which may go on.
    Number(u64),
    /// `hold`, a number and a blank.
    Times(u64),
}

/// Whether a byte is `0` or `1`.
pub fn is_bit(byte: u8) -> bool
    ensures { result ≡ (byte == 48 || byte == 49) }
{
    byte == b'0' || byte == b'1'
}

/// The value of a digit.
fn digit_of(byte: u8) -> Option<u64>
    ensures { result ≡ (if is_digit byte then Some (byte - 48) else None) }
{
    if byte >= b'0' && byte <= b'9' {
        return Some(u64::from(byte - b'0'));
    }
    None
}

/// A line that begins with a byte.
fn begun(byte: u8) -> Option<Said>
    ensures { GoesOn Said.Nothing byte result }
{
    if is_bit(byte) {
        return Some(Said::Bits(1));
    }
    match byte {
        b'-' => Some(Said::Dash),
        b'h' => Some(Said::Letters(1)),
        _ => None,
    }
}

/// A word of bits with one byte more.
fn bits_with(count: u64, byte: u8) -> Option<Said>
    ensures { GoesOn (Said.Bits count) byte result }
{
    if is_bit(byte) {
        return Some(Said::Bits(count.saturating_add(1)));
    }
    None
}

/// Letters of `hold` with one byte more.
fn letters_with(count: usize, byte: u8) -> Option<Said>
    ensures { GoesOn (Said.Letters count) byte result }
{
    match (count, byte) {
        (1, b'o') => Some(Said::Letters(2)),
        (2, b'l') => Some(Said::Letters(3)),
        (3, b'd') => Some(Said::Letters(4)),
        _ => None,
    }
}

/// The word behind `hold` with its first byte.
fn number_begun(byte: u8) -> Option<Said>
    ensures { GoesOn Said.Hold byte result }
{
    match digit_of(byte) {
        Some(digit) => Some(Said::Number(digit)),
        None => None,
    }
}

/// A number with one byte more. The number 0 doesn't go on, and none is above the clocks of a run.
fn number_with(times: u64, byte: u8) -> Option<Said>
    ensures { GoesOn (Said.Number times) byte result }
{
    if times == 0 {
        return None;
    }
    match digit_of(byte) {
        Some(digit) => {
            let longer = times.saturating_mul(10).saturating_add(digit);
            if longer > MOST_CLOCKS {
                return None;
            }
            Some(Said::Number(longer))
        }
        None => None,
    }
}

/// What a line says behind a byte of a word.
fn goes_on(said: Said, byte: u8) -> Option<Said>
    ensures { GoesOn said byte result }
{
    match said {
        Said::Nothing => begun(byte),
        Said::Bits(count) => bits_with(count, byte),
        Said::Dash => None,
        Said::Row(_) => None,
        Said::Letters(count) => letters_with(count, byte),
        Said::Hold => number_begun(byte),
        Said::Number(times) => number_with(times, byte),
        Said::Times(_) => None,
    }
}

/// What a line says behind a blank.
pub fn ends_word(said: Said) -> Option<Said>
    ensures { EndsWord said result }
{
    match said {
        Said::Nothing => Some(Said::Nothing),
        Said::Bits(count) => Some(Said::Row(count)),
        Said::Dash => Some(Said::Row(0)),
        Said::Row(count) => Some(Said::Row(count)),
        Said::Letters(count) => {
            if count == 4 {
                return Some(Said::Hold);
            }
            None
        }
        Said::Hold => Some(Said::Hold),
        Said::Number(times) => Some(Said::Times(times)),
        Said::Times(times) => Some(Said::Times(times)),
    }
}

/// What a line says with one byte more, which is no `#` and doesn't end the line; nothing where no line begins so.
pub fn with_byte(said: Said, byte: u8) -> Option<Said>
    ensures { TakesByte said byte result }
{
    if is_blank(byte) {
        ends_word(said)
    } else {
        goes_on(said, byte)
    }
}

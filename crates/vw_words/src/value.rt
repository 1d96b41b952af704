ghost use Rattle.std.specs.Prelude.{◌≡◌};
ghost use Rattle.vw_words.specs.Forms.{before_slash, behind_slash, part_number, part_count};
ghost use Rattle.vw_words.specs.Values.{number_or_zero};

use bstr::ByteSlice;
use vw_outside::Name;
use vw_text::{number, number_in};

/// Which bytes a word may have, or what it gives a setting.
#[derive(Clone, Copy, Debug, PartialEq, Eq)]
pub enum Value {
    /// `0` or `1`.
    Bit,
    /// The name of a file or a net: any bytes, but at least one.
    Name,
    /// A number from the least to the most, in decimal digits, without sign and without zeros in front.
    Number { least: u64, most: u64 },
    /// A share of several, as `3/7`: its number, from 1, and how many there are, up to the most, each as such a number.
    Part { most: u64 },
}

impl Value {
    ghost use Rattle.vw_words.specs.Forms.{is_value_of};
    ghost use Rattle.vw_words.specs.Views.{value_view};

    /// Whether these bytes are such a value.
    pub fn has(self, text: &[u8]) -> bool
        ensures { result ≡ is_value_of (value_view self) text.now }
    {
        match self {
            Value::Bit => text == b"0".as_slice() || text == b"1".as_slice(),
            Value::Name => !text.is_empty(),
            Value::Number { least, most } => match number_in(text) {
                Some(number) => least <= number && number <= most,
                None => false,
            },
            Value::Part { most } => {
                let (number, count) = part_in(text);
                1 <= number && number <= count && count <= most
            }
        }
    }
}

/// The number that a word spells, or 0 where it spells none.
pub fn number_or_zero(word: &Name) -> u64
    ensures { result ≡ number_or_zero word.now }
{
    number(word).unwrap_or(0)
}

/// What stands before the first slash of a text, and what stands behind it; where there is none, all and nothing.
fn cut_at_slash(text: &[u8]) -> (&[u8], &[u8])
    ensures before { result.0.now ≡ before_slash text.now }
    ensures behind { result.1.now ≡ behind_slash text.now }
{
    match text.find_byte(b'/') {
        Some(end) => (&text[..end], &text[end + 1..]),
        None => (text, &text[text.len()..]),
    }
}

/// The two numbers that a text spells with a slash between them, with 0 in place of what spells none: the number of a share,
/// and how many shares there are.
pub fn part_in(text: &[u8]) -> (u64, u64)
    ensures number { result.0 ≡ part_number text.now }
    ensures count { result.1 ≡ part_count text.now }
{
    let (number, count) = cut_at_slash(text);
    (
        number_in(number).unwrap_or(0),
        number_in(count).unwrap_or(0),
    )
}

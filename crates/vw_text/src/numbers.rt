ghost use Rattle.std.specs.Prelude.{◌≡◌};
ghost use Rattle.vw_text.specs.Number.{spelled_number};

use vw_outside::Name;

/// The number that a word spells: `0`, or decimal digits of which the first isn't `0`, with a value below 2 ^ 64.
/// It takes no memory.
pub fn number(word: &Name) -> Option<u64>
    ensures { result ≡ spelled_number word.now }
{
    number_in(word.as_slice())
}

/// The same for a word that lies in a text.
pub fn number_in(digits: &[u8]) -> Option<u64>
    ensures { result ≡ spelled_number digits.now }
{
    if digits.is_empty() || (digits.len() > 1 && digits[0] == b'0') {
        return None;
    }
    let mut value = 0u64;
    for digit in digits {
        if !digit.is_ascii_digit() {
            return None;
        }
        value = value
            .checked_mul(10)?
            .checked_add(u64::from(*digit - b'0'))?;
    }
    Some(value)
}

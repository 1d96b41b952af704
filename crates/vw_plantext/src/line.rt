//! Lines of a plan text, and the numbers in them.
ghost use Rattle.std.specs.Prelude.{◌≡◌, ◌∷◌, ◌++◌, IfOk, IfNone, IfSome, option_map, Some, None, if◌then◌else◌};
ghost use Rattle.vw_plantext.specs.Steps.Words.{words_between_spaces, words_behind, line_numbers};
ghost use Rattle.vw_plantext.specs.Steps.Cuts.{IsOneLine, IsLineCut};

use bstr::ByteSlice;
use std::alloc::AllocError;
use vw_text::number_in;

/// The first line of a text that has an end, and what stands behind it.
pub fn next_line(text: &[u8]) -> Option<(&[u8], &[u8])>
    ensures none { IfNone result (IsOneLine text.now) }
    ensures cut { IfSome result (λ parts. IsLineCut text.now parts.0.now parts.1.now) }
{
    let end = text.find_byte(b'\n')?;
    Some((&text[..end], &text[end + 1..]))
}

/// The first word of a line, up to a space, and what stands behind the space, where there is one.
fn cut_at_space(line: &[u8]) -> (&[u8], Option<&[u8]>)
    ensures { words_between_spaces line.now
        ≡ result.0.now ∷ words_behind (option_map (λ rest. rest.now) result.1) }
{
    match line.find_byte(b' ') {
        Some(end) => (&line[..end], Some(&line[end + 1..])),
        None => (line, None),
    }
}

/// Reads the numbers behind the first word of a line, which has to be this one, and says whether each of the further
/// words is a number.
pub fn read_numbers(line: &[u8], word: &[u8], numbers: &mut Vec<u64>) -> Result<bool, AllocError>
    ensures { IfOk result (λ fine. line_numbers word.now line.now
        ≡ (if fine then Some numbers.new.items else None)) }
{
    numbers.clear();
    let (first, mut rest) = cut_at_space(line);
    if first != word {
        return Ok(false);
    }
    while let Some(behind) = rest {
        let (digits, after) = cut_at_space(behind);
        let Some(number) = number_in(digits) else {
            return Ok(false);
        };
        numbers.push(number)?;
        rest = after;
    }
    Ok(true)
}

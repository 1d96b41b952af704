ghost use Rattle.std.specs.Prelude.{◌≡◌, ◌++◌, [], IfOk, OnOk};
ghost use Rattle.std.specs.List.{position_or_len};
ghost use Rattle.vw_text.specs.Bare.{is_blank};
ghost use Rattle.vw_text.specs.WordLines.{words_of};

use crate::bare::is_blank;
use std::alloc::{AllocError, Global};
use vw_outside::Name;

/// The number of bytes before the first blank of a line.
fn word_end(line: &[u8]) -> usize
    ensures { result ≡ position_or_len is_blank line.now }
{
    for (at, byte) in line.iter().enumerate() {
        if is_blank(*byte) {
            return at;
        }
    }
    line.len()
}

/// The words of a line.
pub fn words_of(alloc: Global, line: &[u8]) -> Result<Vec<Name>, AllocError>
    ensures { IfOk result (λ words. words.items ≡ words_of line.now) }
{
    let mut words = Vec::new(alloc);
    let mut rest = line;
    while !rest.is_empty() {
        let end = word_end(rest);
        if end > 0 {
            words.push(Name::of(Vec::from_slice(alloc, &rest[..end])?))?;
        }
        rest = &rest[rest.len().min(end + 1)..];
    }
    Ok(words)
}

/// The words of a logical line of which this is the front and this the rest. The front is empty afterwards.
pub fn joined_words(
    alloc: Global,
    front: &mut Vec<u8>,
    line: &[u8],
) -> Result<Vec<Name>, AllocError>
    ensures words { IfOk result (λ words. words.items ≡ words_of (front.old.items ++ line.now)) }
    ensures front { OnOk result (front.new.items ≡ []) }
{
    if front.is_empty() {
        return words_of(alloc, line);
    }
    front.extend_from_slice(line)?;
    let words = words_of(alloc, front)?;
    front.clear();
    Ok(words)
}

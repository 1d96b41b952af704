//! Words: compared, apart from each other, and as copies.
ghost use Rattle.std.specs.Prelude.{◌≡◌, ◌<◌, length, IfOk};
ghost use Rattle.std.specs.Str.{bytes_eq};
ghost use Rattle.vw_blif.specs.Words.{front_words, last_word, first_word};
ghost use Rattle.vw_blif.specs.Kinds.{further};

use std::alloc::{AllocError, Global};
use vw_outside::Name;
use vw_text::Line;

/// Whether a word has these bytes.
pub fn is(word: &[u8], bytes: &[u8]) -> bool
    ensures { result ≡ bytes_eq word.now bytes.now }
{
    word == bytes
}

/// A word of its own with the same bytes.
pub fn copy(alloc: Global, word: &[u8]) -> Result<Name, AllocError>
    ensures { IfOk result (λ copy. copy ≡ word.now) }
{
    Ok(Name::of(word.to_vec(alloc)?))
}

/// Words of their own with the same bytes.
pub fn copies(alloc: Global, words: &[Name]) -> Result<Vec<Name>, AllocError>
    ensures { IfOk result (λ copies. copies.items ≡ words.now) }
{
    let mut copies = Vec::new(alloc);
    for word in words {
        copies.push(copy(alloc, word.as_slice())?)?;
    }
    Ok(copies)
}

/// The words before the last, and the last.
pub fn front_and_last(words: &[Name]) -> (&[Name], &Name)
    requires { 0 < length words.now }
    ensures front { result.0.now ≡ front_words words.now }
    ensures last { result.1.now ≡ last_word words.now }
{
    let last = words.len() - 1;
    (&words[..last], &words[last])
}

/// The first word of a line; no byte where it has none.
pub fn first(line: &Line) -> &[u8]
    ensures { result.now ≡ first_word line.now.words }
{
    match line.words() {
        [first, ..] => first.as_slice(),
        [] => b"",
    }
}

/// The words of a line behind the first.
pub fn further(line: &Line) -> &[Name]
    ensures { result.now ≡ further line.now }
{
    match line.words() {
        [_, rest @ ..] => rest,
        [] => &[],
    }
}

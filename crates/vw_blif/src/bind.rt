//! Bindings of placed models.
ghost use Rattle.std.specs.Prelude.{◌≡◌, ◌<◌, true, false, length, IfOk, IfErr, MatchOption, IsTrue};
ghost use Rattle.vw_design.specs.Shape.{has_its_shape};
ghost use Rattle.vw_blif.specs.Bindings.{formal_of, actual_part, is_no_bind, has_bad_bind, spelled_placing};
ghost use Rattle.vw_blif.specs.Spelled.{spelled_item};
ghost use Rattle.vw_blif.specs.Steps.FaultAnswers.{SaysBind, SaysPlace, AreBinds};

use crate::copies::copy;
use crate::fault::TextFault;
use bstr::ByteSlice;
use std::alloc::{AllocError, Global};
use vw_design::{Bind, Item, WordSet};
use vw_net::Sequence;
use vw_outside::Name;

/// What stands before the first `=` of a word and what stands behind it; nothing where there is none, or where one of
/// them is empty.
fn sides(word: &[u8]) -> Option<(&[u8], &[u8])>
    ensures { MatchOption result (is_no_bind word.now ≡ true)
        (λ sides. (is_no_bind word.now ≡ false) × (sides.0.now ≡ formal_of word.now)
        × (sides.1.now ≡ actual_part word.now)) }
{
    let Some(cut) = word.find_byte(b'=') else {
        return None;
    };
    if cut == 0 {
        return None;
    }
    if cut + 1 == word.len() {
        return None;
    }
    Some((&word[..cut], &word[cut + 1..]))
}

/// The binding of two names.
fn bind(alloc: Global, formal: &[u8], actual: &[u8]) -> Result<Bind, AllocError>
    ensures formal { IfOk result (λ bind. bind.formal ≡ formal.now) }
    ensures actual { IfOk result (λ bind. bind.actual ≡ actual.now) }
{
    Ok(Bind::make(copy(alloc, formal)?, copy(alloc, actual)?))
}

/// The bindings that words spell.
fn binds_of(alloc: Global, line: u64, words: &[Name]) -> Result<Vec<Bind>, TextFault>
    ensures binds { IfOk result (λ binds. AreBinds words.now binds.items) }
    ensures fault { IfErr result (SaysBind line words.now) }
{
    let mut binds = Vec::new(alloc);
    let mut seen = WordSet::none(alloc);
    for word in words {
        let Some((formal, actual)) = sides(word.as_slice()) else {
            return Err(TextFault::BadBind(line));
        };
        if !seen.insert(formal)? {
            return Err(TextFault::BadBind(line));
        }
        binds.push(bind(alloc, formal, actual)?)?;
    }
    Ok(binds)
}

/// The placed model of the words behind the keyword.
pub fn subckt_of(alloc: Global, line: u64, words: &[Name]) -> Result<Item, TextFault>
    requires { 0 < length words.now }
    ensures item { IfOk result (λ item. spelled_item item ≡ spelled_placing line words.now) }
    ensures shape { IfOk result (λ item. IsTrue (has_its_shape item)) }
    ensures fine { IfOk result (λ _. has_bad_bind words.now ≡ false) }
    ensures fault { IfErr result (SaysPlace line words.now) }
{
    let [model, rest @ ..] = words else {
        return Err(TextFault::BadWords(line));
    };
    let binds = binds_of(alloc, line, rest)?;
    Ok(Item::Sub {
        line,
        model: copy(alloc, model.as_slice())?,
        binds: Sequence::of(binds),
    })
}

//! Sets of words that lie in an arena.
ghost use Rattle.std.specs.Prelude.{◌≡◌, ◌||◌, not, IfOk, OnOk};
ghost use Rattle.std.specs.Str.{bytes_eq};
ghost use Rattle.vw_design.specs.Paths.{Word};
ghost use Rattle.vw_design.specs.WordSets.{has_word};
ghost use Rattle.vw_blif.specs.Steps.KeptWords.{InsertsAll};

use bumpalo::Bump;
use std::alloc::AllocError;
use vw_design::WordSet;
use vw_outside::Name;

/// Adds a word that lies in an arena from then on, and says whether it is new.
pub fn keep<'a>(words: &mut WordSet<'a>, arena: &'a Bump, word: &[u8]) -> Result<bool, AllocError>
    ensures is_new { IfOk result (λ is_new. is_new ≡ not (has_word words.old.words word.now)) }
    ensures words { OnOk result ((other : Word)
        → has_word words.new.words other
        ≡ (bytes_eq word.now other || has_word words.old.words other)) }
{
    let kept = arena.try_alloc_slice_copy(word)?;
    words.insert(kept)
}

/// Adds names until one isn't new, and says whether all were.
pub fn keep_all<'a>(
    words: &mut WordSet<'a>,
    arena: &'a Bump,
    names: &[Name],
) -> Result<bool, AllocError>
    ensures { IfOk result (InsertsAll words.old.words names.now words.new.words) }
{
    words.reserve(names.len())?;
    for name in names {
        if !keep(words, arena, name.as_slice())? {
            return Ok(false);
        }
    }
    Ok(true)
}

//! The value of a table in 64 lanes at the same time.
ghost use Rattle.std.specs.Prelude.{◌≡◌, ◌<◌, ℕ, length, map, slice_get, Some};
ghost use Rattle.vw_net.specs.declared.cover.Row.{Row};
ghost use Rattle.vw_net.specs.Cover.{cover_value};
ghost use Rattle.vw_net.specs.Mark.{mark_matches, row_matches};
ghost use Rattle.vw_net.specs.TruthTable.{bit_of};
ghost use Rattle.vw_merge.specs.Words.{bits_of};

use vw_net::{Cover, Mark};

/// The value of a table in each lane, where its inputs have these words. It takes no memory.
pub fn gate_word(cover: &Cover, words: &[u64]) -> u64
    requires arity { length words.now ≡ cover.now.inputs }
    ensures { (lane : ℕ) → lane < 64 → bit_of result lane ≡ cover_value cover.now (bits_of lane words.now) }
{
    let mut matched = 0;
    for row in 0..cover.count() {
        matched |= row_word(cover, row, words);
    }
    if cover.on() {
        matched
    } else {
        matched ^ u64::MAX
    }
}

/// Whether a row matches, in each lane.
fn row_word(cover: &Cover, row: u64, words: &[u64]) -> u64
    requires row { row < length cover.now.rows }
    requires arity { length words.now ≡ cover.now.inputs }
    ensures { (one : Row) → slice_get cover.now.rows row ≡ Some one → (lane : ℕ) → lane < 64
        → bit_of result lane ≡ row_matches one.marks (bits_of lane words.now) }
{
    let mut matched = u64::MAX;
    for (input, word) in words.iter().enumerate() {
        matched &= mark_word(cover.mark(row, input as u32), *word);
    }
    matched
}

/// Whether the bit of each lane is one that a mark asks for.
fn mark_word(mark: Mark, word: u64) -> u64
    ensures { (lane : ℕ) → lane < 64 → bit_of result lane ≡ mark_matches mark (bit_of word lane) }
{
    match mark {
        Mark::Zero => word ^ u64::MAX,
        Mark::One => word,
        Mark::Any => u64::MAX,
    }
}

//! The value of a gate in 64 lanes.
ghost use Rattle.std.specs.Prelude.{◌≡◌, ◌<◌, ℕ, length, map, slice_get, slice_index_or, Some};
ghost use Rattle.std.specs.List.{All};
ghost use Rattle.vw_net.specs.declared.cover.Row.{Row};
ghost use Rattle.vw_net.specs.Cover.{cover_value};
ghost use Rattle.vw_net.specs.Mark.{mark_matches, row_matches};
ghost use Rattle.vw_net.specs.TruthTable.{bit_of};
ghost use Rattle.vw_fault.specs.Steps.Lanes.{bits_at};

use crate::table::{First, of_five, of_four, of_none, of_six, of_three, of_two};
use crate::words::Words;
use vw_net::{Cover, Mark};

/// The value of a table in each lane, where its inputs are these nets. It takes no memory.
pub fn gate_word(cover: &Cover, ins: &[u32], words: &Words) -> u64
    requires arity { length ins.now ≡ cover.now.inputs }
    requires within { All (λ net. net < length words.now) ins.now }
    ensures { (lane : ℕ) → lane < 64
        → bit_of result lane ≡ cover_value cover.now (bits_at lane words.now ins.now) }
{
    let table = cover.truth_table();
    match ins {
        [] => of_none(table),
        [a] => First::of(words.get(*a as usize)).value(table),
        [a, b] => of_two(
            table,
            &First::of(words.get(*a as usize)),
            words.get(*b as usize),
        ),
        [a, b, c] => of_three(
            table,
            &First::of(words.get(*a as usize)),
            words.get(*b as usize),
            words.get(*c as usize),
        ),
        [a, b, c, d] => of_four(
            table,
            &First::of(words.get(*a as usize)),
            words.get(*b as usize),
            words.get(*c as usize),
            words.get(*d as usize),
        ),
        [a, b, c, d, e] => of_five(
            table,
            &First::of(words.get(*a as usize)),
            words.get(*b as usize),
            words.get(*c as usize),
            words.get(*d as usize),
            words.get(*e as usize),
        ),
        [a, b, c, d, e, f] => of_six(
            table,
            &First::of(words.get(*a as usize)),
            words.get(*b as usize),
            words.get(*c as usize),
            words.get(*d as usize),
            words.get(*e as usize),
            words.get(*f as usize),
        ),
        _ => rows_word(cover, ins, words),
    }
}

/// The same by the rows of the table, whatever its width.
fn rows_word(cover: &Cover, ins: &[u32], words: &Words) -> u64
    requires arity { length ins.now ≡ cover.now.inputs }
    requires within { All (λ net. net < length words.now) ins.now }
    ensures { (lane : ℕ) → lane < 64
        → bit_of result lane ≡ cover_value cover.now (bits_at lane words.now ins.now) }
{
    let mut matched = 0;
    for row in 0..cover.count() {
        matched |= row_word(cover, row, ins, words);
    }
    if cover.on() {
        matched
    } else {
        matched ^ u64::MAX
    }
}

/// Whether a row matches, in each lane.
fn row_word(cover: &Cover, row: u64, ins: &[u32], words: &Words) -> u64
    requires row { row < length cover.now.rows }
    requires arity { length ins.now ≡ cover.now.inputs }
    requires within { All (λ net. net < length words.now) ins.now }
    ensures { (one : Row) → slice_get cover.now.rows row ≡ Some one → (lane : ℕ) → lane < 64
        → bit_of result lane ≡ row_matches one.marks (bits_at lane words.now ins.now) }
{
    let mut matched = u64::MAX;
    for (input, net) in ins.iter().enumerate() {
        matched &= mark_word(cover.mark(row, input as u32), words.get(*net as usize));
    }
    matched
}

/// Whether the bit of each lane is one that a mark asks for.
fn mark_word(mark: Mark, word: u64) -> u64
    ensures { (lane : ℕ) → lane < 64
        → bit_of result lane ≡ mark_matches mark (bit_of word lane) }
{
    match mark {
        Mark::Zero => word ^ u64::MAX,
        Mark::One => word,
        Mark::Any => u64::MAX,
    }
}

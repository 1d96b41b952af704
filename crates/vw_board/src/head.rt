//! The first five lines of a board text.
ghost use Rattle.std.specs.Prelude.{◌≡◌, ◌<◌, ◌≤◌, ◌^◌, length, slice_get, Some, None, IsTrue, IfOk, IfErr};
ghost use Rattle.std.specs.List.{All};
ghost use Rattle.vw_board.specs.Words.{is_line_of, number_within};
ghost use Rattle.vw_board.specs.Headers.{next_number, place_fault, headers_fault, header_number};
ghost use Rattle.vw_board.specs.Steps.Faults.{is_line_fault};
ghost use Rattle.vw_board.specs.Steps.Heads.{IsBoardHead};

use crate::fault::BoardFault;
use crate::limits::MOST_PINS;
use vw_net::MOST_CELLS;
use vw_plan::{MOST_CHIPS, MOST_SETTLE};
use vw_text::{Line, number};

/// The numbers of the first five lines.
#[derive(Clone, Copy)]
pub struct BoardHead {
    /// 1 or 2. Only in a text of version 2 the delays of links are written.
    pub version: u32,
    pub chips: u32,
    pub cells: u32,
    pub settle: u32,
    pub pins: u32,
}

/// Whether a line has this many words, at least one, and begins with a word.
pub fn is_line_of(line: &Line, word: &[u8], count: usize) -> bool
    requires { 0 < count }
    ensures { result ≡ is_line_of word.now count line.now }
{
    let words = line.words();
    words.len() == count && words[0].as_slice() == word
}

/// The number that a word of a line spells, where it spells one in a range.
pub fn number_within(line: &Line, place: usize, least: u64, greatest: u64) -> Option<u32>
    requires place { place < length line.now.words }
    requires small { greatest < 2 ^ 32 }
    ensures { result ≡ number_within least greatest place line.now }
{
    match number(&line.words()[place]) {
        Some(value) if least <= value && value <= greatest => Some(value as u32),
        _ => None,
    }
}

/// One more than the number of the last line; 1 where there is none.
fn next_number(lines: &[Line]) -> u64
    requires { All (λ line. line.number < 2 ^ 63) lines.now }
    ensures { result ≡ next_number lines.now }
{
    match lines.last() {
        Some(line) => line.number() + 1,
        None => 1,
    }
}

/// The number of the line at a place, which has to begin with a word.
fn header(
    lines: &[Line],
    place: usize,
    word: &[u8],
    least: u64,
    greatest: u64,
) -> Result<u32, BoardFault>
    requires numbered { All (λ line. line.number < 2 ^ 63) lines.now }
    requires small { greatest < 2 ^ 32 }
    ensures fine { IfOk result (λ value. (place_fault lines.now
        (record { word = word.now; least = least; greatest = greatest })
        (slice_get lines.now place) ≡ None)
        × (value ≡ header_number place lines.now) × (least ≤ value) × (value ≤ greatest)) }
    ensures fault { IfErr result (λ fault. place_fault lines.now
        (record { word = word.now; least = least; greatest = greatest })
        (slice_get lines.now place) ≡ Some fault) }
    ensures of_line { IfErr result (λ fault. IsTrue (is_line_fault fault)) }
{
    let Some(line) = lines.get(place) else {
        return Err(BoardFault::BadLine(next_number(lines)));
    };
    if !is_line_of(line, word, 2) {
        return Err(BoardFault::BadLine(line.number()));
    }
    match number_within(line, 1, least, greatest) {
        Some(value) => Ok(value),
        None => Err(BoardFault::BadNumber(line.number())),
    }
}

/// The numbers of the first five lines.
pub fn read_head(lines: &[Line]) -> Result<BoardHead, BoardFault>
    requires { All (λ line. line.number < 2 ^ 63) lines.now }
    ensures fine { IfOk result (IsBoardHead lines.now) }
    ensures fault { IfErr result (λ fault. headers_fault lines.now ≡ Some fault) }
    ensures of_line { IfErr result (λ fault. IsTrue (is_line_fault fault)) }
{
    let version = header(lines, 0, b"board", 1, 2)?;
    let chips = header(lines, 1, b"chips", 1, u64::from(MOST_CHIPS))?;
    let cells = header(lines, 2, b"cells", 1, u64::from(MOST_CELLS))?;
    let settle = header(lines, 3, b"settle", 0, u64::from(MOST_SETTLE))?;
    let pins = header(lines, 4, b"pins", 1, u64::from(MOST_PINS))?;
    Ok(BoardHead {
        version,
        chips,
        cells,
        settle,
        pins,
    })
}

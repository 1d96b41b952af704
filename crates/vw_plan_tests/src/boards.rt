//! Boards and numbers of chips, for tests.
ghost use Rattle.std.specs.Prelude.{◌≡◌, nat_le, IfOk};
ghost use Rattle.std.specs.Bool.{OnTrue};
ghost use Rattle.std.specs.List.{All, list_all};
ghost use Rattle.vw_plan.specs.Chips.{IsChip};

use std::alloc::{AllocError, Global};
use std::test::Fail;
use vw_board::{Distances, read};
use vw_plan::Board;

/// Two chips and the host, each joined to each other by one pin.
pub const TRIANGLE: &[u8] =
    b"board 1\nchips 2\ncells 1\nsettle 0\npins 4\nlink 0 1 1\nlink 0 2 1\nlink 1 0 1\nlink 1 2 1\nlink 2 0 1\nlink 2 1 1\n";

/// The board of a text.
pub fn board(alloc: Global, text: &[u8]) -> Result<Board, Fail> {
    match read(alloc, text) {
        Ok(board) => Ok(board),
        Err(_) => Err("no board".into()),
    }
}

/// The distances of a board of so many chips.
pub fn distances_of(alloc: Global, text: &[u8], chips: u32) -> Result<Distances, Fail>
    ensures { IfOk result (λ distances. distances.chips ≡ chips) }
{
    let board = board(alloc, text)?;
    if board.chips() != chips {
        return Err("another number of chips".into());
    }
    Ok(Distances::of(alloc, &board)?)
}

/// Chips for 65536 cells, which the chips take in turns, from chip 32 down to chip 1.
pub fn chips_in_turns(alloc: Global) -> Result<Vec<u32>, AllocError> {
    let mut chips = Vec::new(alloc);
    for number in 0..65536u32 {
        chips.push(32 - number % 32)?;
    }
    Ok(chips)
}

/// Whether each of these is the number of a chip.
pub fn are_chips(board: &Board, chips: &[u32]) -> bool
    ensures { OnTrue result (All (IsChip board.now) chips.now) }
{
    for chip in chips {
        if *chip < 1 || *chip > board.chips() {
            return false;
        }
    }
    true
}

/// Whether each of these may be the number of a chip.
pub fn may_be_chips(chips: &[u32]) -> bool
    ensures { result ≡ list_all (λ chip. nat_le 1 chip) chips.now }
{
    for chip in chips {
        if *chip < 1 {
            return false;
        }
    }
    true
}

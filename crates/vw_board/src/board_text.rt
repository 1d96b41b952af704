//! Board texts.
ghost use Rattle.std.specs.Prelude.{◌≡◌, ◌≤◌, ◌<◌, ◌^◌, IfOk, IfErr};
ghost use Rattle.std.specs.List.{All};
ghost use Rattle.vw_board.specs.Pins.{AreEnoughPins};
ghost use Rattle.vw_board.specs.BoardText.{Spells, Refuses, RefusesLines, RefusesLinks, IsBoardOfLines};
ghost use Rattle.vw_board.specs.Steps.Heads.{IsHeadInRange};
ghost use Rattle.vw_plan.specs.Links.{AreSeparate};

use crate::apart::first_apart;
use crate::fault::BoardFault;
use crate::head::{BoardHead, read_head};
use crate::limits::MOST_BOARD_BYTES;
use crate::link_lines::read_links;
use crate::pins::first_over;
use crate::walks::least_links;
use std::alloc::Global;
use vw_net::Sequence;
use vw_plan::{Board, Link};
use vw_text::{Line, lines};

/// The board of these numbers and links, where the chips have enough pins and walks lead everywhere.
fn make_board(alloc: Global, head: BoardHead, links: Vec<Link>) -> Result<Board, BoardFault>
    requires head { IsHeadInRange head }
    requires links { AreSeparate head.chips links.items }
    ensures enough { IfOk result (λ _. AreEnoughPins head.chips head.pins links.items) }
    ensures chips { IfOk result (λ board. board.chips ≡ head.chips) }
    ensures cells { IfOk result (λ board. board.cells ≡ head.cells) }
    ensures settle { IfOk result (λ board. board.settle ≡ head.settle) }
    ensures links { IfOk result (λ board. board.links ≡ links.items) }
    ensures refuses { IfErr result (RefusesLinks head.chips head.pins links.items) }
{
    if let Some((chip, used)) = first_over(head.chips, head.pins, &links) {
        return Err(BoardFault::PinsExceeded(chip, used, head.pins));
    }
    let least = least_links(alloc, head.chips, &links)?;
    if let Some((from, to)) = first_apart(&least) {
        return Err(BoardFault::Unreachable(from, to));
    }
    let links = Sequence::of(links);
    Ok(Board::make(head.chips, head.cells, head.settle, links))
}

/// The board that lines spell.
fn board_of(alloc: Global, lines: &[Line]) -> Result<Board, BoardFault>
    requires { All (λ line. line.number < 2 ^ 63) lines.now }
    ensures spells { IfOk result (IsBoardOfLines lines.now) }
    ensures refuses { IfErr result (RefusesLines lines.now) }
{
    let head = read_head(lines)?;
    let links = read_links(alloc, head.version, head.chips, &lines[5..])?;
    make_board(alloc, head, links)
}

/// The board that a text spells, or the fault of the text. Texts of up to 1,048,576 bytes are read. In a text that begins
/// with `board 1` each link has a delay of 1, and in one that begins with `board 2` its delay stands on its line. Of lines at fault
/// the first counts, and on a line the fault that stands first in `BoardFault`; pins are counted and walks are looked for
/// only where no line is at fault.
pub fn read(alloc: Global, bytes: &[u8]) -> Result<Board, BoardFault>
    ensures accepts { IfOk result (Spells bytes.now) }
    ensures refuses { IfErr result (Refuses bytes.now) }
{
    if bytes.len() > MOST_BOARD_BYTES {
        return Err(BoardFault::TooLarge);
    }
    let lines = lines(alloc, bytes)?;
    board_of(alloc, &lines)
}

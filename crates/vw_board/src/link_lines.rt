//! The lines of a board text behind the first five.
ghost use Rattle.std.specs.Prelude.{◌≡◌, ◌⊎◌, [], length, Some, IsTrue, IfOk, IfErr};
ghost use Rattle.vw_plan.specs.Walks.{has_link};
ghost use Rattle.vw_board.specs.declared.fault.BoardFault.{BoardFault};
ghost use Rattle.vw_board.specs.LinkLines.{delay_in, first_link_fault, link_fault, link_words};
ghost use Rattle.vw_board.specs.Steps.Faults.{is_line_fault};
ghost use Rattle.vw_board.specs.Steps.Links.{ReadsLink, ReadsLinks};

use crate::fault::BoardFault;
use crate::head::{is_line_of, number_within};
use std::alloc::Global;
use vw_plan::Link;
use vw_text::Line;

/// Whether a link leads from one node to another.
pub fn has_link(links: &[Link], from: u32, to: u32) -> bool
    ensures { result ≡ has_link links.now from to }
{
    links
        .iter()
        .any(|link| link.from() == from && link.to() == to)
}

/// How many words a link line has.
fn link_words(version: u32) -> usize
    ensures { result ≡ link_words version }
{
    if version == 1 { 4 } else { 5 }
}

/// The delay of a link line, where it is one from 1 to 16; 1 where it isn't written.
fn delay_in(version: u32, line: &Line) -> Option<u32>
    requires { length line.now.words ≡ link_words version }
    ensures { result ≡ delay_in version line.now }
{
    if version == 1 {
        return Some(1);
    }
    number_within(line, 4, 1, 16)
}

/// The link of a line behind these links.
fn read_link(version: u32, chips: u32, links: &[Link], line: &Line) -> Result<Link, BoardFault>
    ensures fine { IfOk result (ReadsLink version chips links.now line.now) }
    ensures fault { IfErr result (λ fault. link_fault version chips links.now line.now ≡ Some fault) }
    ensures of_line { IfErr result (λ fault. IsTrue (is_line_fault fault)) }
{
    if !is_line_of(line, b"link", link_words(version)) {
        return Err(BoardFault::BadLine(line.number()));
    }
    let nodes = u64::from(chips);
    let Some(from) = number_within(line, 1, 0, nodes) else {
        return Err(BoardFault::BadNumber(line.number()));
    };
    let Some(to) = number_within(line, 2, 0, nodes) else {
        return Err(BoardFault::BadNumber(line.number()));
    };
    let Some(width) = number_within(line, 3, 1, 64) else {
        return Err(BoardFault::BadNumber(line.number()));
    };
    let Some(delay) = delay_in(version, line) else {
        return Err(BoardFault::BadNumber(line.number()));
    };
    if from == to {
        return Err(BoardFault::SelfLink(from));
    }
    if has_link(links, from, to) {
        return Err(BoardFault::DuplicateLink(from, to));
    }
    Ok(Link::make(from, to, width, delay))
}

/// The links of lines, in the order of the lines, of a text of this version. A line is compared with the links before it: no more than 1,056 links
/// differ between 33 nodes, and the next one is a fault.
pub fn read_links(
    alloc: Global,
    version: u32,
    chips: u32,
    lines: &[Line],
) -> Result<Vec<Link>, BoardFault>
    ensures fine { IfOk result (λ links. ReadsLinks version chips lines.now links.items) }
    ensures fault { IfErr result (λ fault. (fault ≡ BoardFault.NoMemory)
        ⊎ ((first_link_fault version chips [] lines.now ≡ Some fault) × IsTrue (is_line_fault fault))) }
{
    let mut links = Vec::new(alloc);
    for line in lines {
        links.push(read_link(version, chips, &links, line)?)?;
    }
    Ok(links)
}

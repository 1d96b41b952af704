//! The links of a board, by the nodes that they join.
ghost use Rattle.std.specs.Prelude.{◌≡◌, ◌≤◌, ◌<◌, ◌+◌, ◌^◌, find, IfOk};
ghost use Rattle.std.specs.List.{All};
ghost use Rattle.vw_plan.specs.Lead.{after_last, arrival};
ghost use Rattle.vw_ready.specs.Links.{joins, link_number};
ghost use Rattle.vw_ready.specs.Steps.{HasNumbers};

use std::alloc::{AllocError, Global};
use std::marker::Model;
use vw_plan::{Board, Hop, Link};

/// The links of a board, with a table in which the link from a node to another is looked up. Contracts see it as the list
/// of the links. The row of the node that a link leaves has a place for each of 33 nodes.
pub struct LinkTable<'a> {
    links: &'a [Link],
    numbers: Vec<Option<u32>>,
}

impl Drop for LinkTable<'_> {
    fn drop(self) {
        let LinkTable {
            links: _,
            numbers: _,
        } = self;
    }
}

impl<'a> Model for LinkTable<'a> {
    ghost use Rattle.std.specs.Prelude.{List};
    ghost use Rattle.vw_plan.specs.declared.link.Link.{Link};
    ghost use Rattle.vw_ready.specs.Steps.{HasNumbers};

    ghost Value = { List Link };

    ghost view = { λ table. table.links.now };

    ghost invariant = { λ table. HasNumbers table.links.now table.numbers.items };
}

/// The number of the first link from each node to each other. It is filled from the end, so that the first of equal links
/// stays.
fn link_numbers(alloc: Global, board: &Board) -> Result<Vec<Option<u32>>, AllocError>
    ensures { IfOk result (λ numbers. HasNumbers board.now.links numbers.items) }
{
    let links = board.links();
    let mut numbers = vec![in alloc; None; 1089]?;
    for number in (0..links.len()).rev() {
        let link = &links[number];
        numbers[link.from() as usize * 33 + link.to() as usize] = Some(number as u32);
    }
    Ok(numbers)
}

impl<'a> LinkTable<'a> {
    /// The table of the links of a board. It takes memory for a number for each two of 33 nodes.
    pub fn of(alloc: Global, board: &'a Board) -> Result<Self, AllocError>
        ensures { IfOk result (λ table. table ≡ board.now.links) }
    {
        let numbers = link_numbers(alloc, board)?;
        Ok(LinkTable {
            links: board.links(),
            numbers,
        })
    }

    /// The number of the link from a node to another.
    pub fn number(&self, from: u32, to: u32) -> Option<u32>
        ensures { result ≡ link_number self.now from to }
    {
        let numbers = self.numbers.as_slice();
        if from > 32 || to > 32 {
            return None;
        }
        numbers[from as usize * 33 + to as usize]
    }

    /// The link from a node to another.
    pub fn between(&self, from: u32, to: u32) -> Option<Link>
        ensures { result ≡ find (joins from to) self.now }
    {
        match self.number(from, to) {
            Some(number) => Some(self.links[number as usize]),
            None => None,
        }
    }

    /// The microcycle in which the bit of a hop arrives; the hop's own where no link leads where it goes.
    pub fn arrival(&self, hop: &Hop) -> u64
        requires { hop.now.at ≤ 2 ^ 62 }
        ensures value { result ≡ arrival self.now hop.now }
        ensures low { result < 2 ^ 62 + 2 ^ 32 }
    {
        match self.between(hop.from(), hop.to()) {
            Some(link) => hop.at() + u64::from(link.delay().saturating_sub(1)),
            None => hop.at(),
        }
    }

    /// One past the arrival of the last of some hops; 0 where there is none.
    pub fn after_last(&self, hops: &[Hop]) -> u64
        requires { All (λ hop. hop.at ≤ 2 ^ 62) hops.now }
        ensures value { result ≡ after_last self.now hops.now }
        ensures low { result < 2 ^ 63 }
    {
        match hops.last() {
            Some(hop) => self.arrival(hop) + 1,
            None => 0,
        }
    }
}

//! The nodes of a board in some order.
ghost use Rattle.std.specs.Prelude.{◌≡◌, ◌≤◌, ◌+◌, map, IfOk};
ghost use Rattle.std.specs.List.{All, swap};
ghost use Rattle.vw_plan.specs.Chips.{IsChip};
ghost use Rattle.vw_plan.specs.Distance.{distance};
ghost use Rattle.vw_place.specs.Steps.NodeLists.{IsNodeList, renumbered_node};

use crate::placement::Placement;
use std::alloc::{AllocError, Global};
use std::marker::Model;
use vw_board::Distances;
use vw_net::Sequence;

/// The nodes of a board in some order, as new numbers for them; the host, which is node 0, keeps its number. Contracts see
/// it as the board with these numbers.
pub struct NodeList<'a> {
    /// How far the nodes are from each other.
    distances: &'a Distances,
    /// The new number of each node.
    numbers: Vec<u32>,
}

impl Drop for NodeList<'_> {
    fn drop(self) {
        let NodeList {
            distances: _,
            numbers: _,
        } = self;
    }
}

impl<'a> Model for NodeList<'a> {
    ghost use Rattle.vw_place.specs.Steps.NodeLists.{IsNodeList, NumberedBoard};

    ghost Value = { NumberedBoard };

    ghost view = { λ nodes. record { board = nodes.distances.now; numbers = nodes.numbers.items } };

    ghost invariant = { λ nodes. IsNodeList nodes.distances.now nodes.numbers.items };
}

impl<'a> NodeList<'a> {
    /// The nodes of the board of a placement, each with its own number.
    pub fn of(alloc: Global, placement: &Placement<'a>) -> Result<Self, AllocError>
        ensures { IfOk result (λ nodes. nodes.board ≡ placement.now.board.now) }
    {
        let mut numbers = Vec::new(alloc);
        for node in 0..placement.board.chips() + 1 {
            numbers.push(node)?;
        }
        Ok(NodeList {
            distances: placement.distances,
            numbers,
        })
    }

    /// How many nodes there are.
    pub fn len(&self) -> usize
        ensures { result ≡ self.now.board.chips + 1 }
    {
        self.numbers.len()
    }

    /// How far two nodes are from each other by their new numbers.
    pub fn distance(&self, from: usize, to: usize) -> u32
        requires from { from ≤ self.now.board.chips }
        requires to { to ≤ self.now.board.chips }
        ensures { result ≡ distance self.now.board (renumbered_node self.now.numbers from)
            (renumbered_node self.now.numbers to) }
    {
        self.distances
            .distance(self.numbers[from], self.numbers[to])
    }

    /// Exchanges the numbers of two chips.
    pub fn swap(&mut self, one: usize, other: usize)
        requires one { IsChip self.old.board one }
        requires other { IsChip self.old.board other }
        ensures nodes { IsNodeList self.old.board self.old.numbers }
        ensures swapped { self.new ≡ record self.old { numbers = swap self.old.numbers one other } }
    {
        self.numbers.swap(one, other);
    }

    /// A placement with the new number of each chip.
    pub fn renumbered(&self, alloc: Global, chip_of: &[u32]) -> Result<Sequence<u32>, AllocError>
        requires { All (λ chip. chip ≤ self.now.board.chips) chip_of.now }
        ensures nodes { IsNodeList self.now.board self.now.numbers }
        ensures moved { IfOk result
            (λ new. new ≡ map (renumbered_node self.now.numbers) chip_of.now) }
    {
        let numbers = self.numbers.as_slice();
        let mut new = Vec::with_capacity(alloc, chip_of.len())?;
        for chip in chip_of {
            new.push(numbers[*chip as usize])?;
        }
        Ok(Sequence::of(new))
    }
}

//! Exchanges of chips, until none lessens the travel.
ghost use Rattle.std.specs.Prelude.{◌≡◌};
ghost use Rattle.vw_place.specs.Steps.Traffic.{travel_by};

use crate::node_list::NodeList;
use crate::pair_table::PairTable;

/// The nodes of a board in the best order so far, and how far the needed pairs go by it.
#[derive(Drop)]
pub struct Exchange<'a> {
    /// How many needed pairs go from each node to each other.
    pub table: &'a PairTable,
    /// The nodes in the best order so far.
    pub nodes: NodeList<'a>,
    /// How far the needed pairs go, with the nodes in this order.
    travel: u64,
    ghost is: { travel ≡ travel_by table.now nodes.board nodes.numbers },
}

impl<'a> Exchange<'a> {
    ghost use Rattle.std.specs.Prelude.{◌+◌};
    ghost use Rattle.vw_plan.specs.Chips.{IsChip};
    ghost use Rattle.vw_place.specs.Steps.Tries.{HasTried, IsBefore, IsBoth, IsOneAndLater, NoneIsUseful};

    /// An exchange that begins with these nodes.
    pub fn of(table: &'a PairTable, nodes: NodeList<'a>) -> Self
        ensures table { result.table.now ≡ table.now }
        ensures nodes { result.nodes ≡ nodes.entry }
    {
        let travel = table.travel(&nodes);
        Exchange {
            table,
            nodes,
            travel,
        }
    }

    /// Exchanges two chips where that lessens the travel.
    fn try_two(&mut self, one: usize, other: usize)
        requires one { IsChip self.old.nodes.board one }
        requires other { IsChip self.old.nodes.board other }
        ensures { HasTried (IsBoth one other) self.old self.new }
    {
        self.nodes.swap(one, other);
        let travel = self.table.travel(&self.nodes);
        if travel < self.travel {
            self.travel = travel;
            return;
        }
        self.nodes.swap(one, other);
    }

    /// Tries to exchange a chip with each later one.
    fn try_later(&mut self, one: usize)
        requires { IsChip self.old.nodes.board one }
        ensures { HasTried (IsOneAndLater one (self.old.nodes.board.chips + 1)) self.old self.new }
    {
        for other in one + 1..self.nodes.len() {
            self.try_two(one, other);
        }
    }

    /// Tries to exchange each two chips once.
    fn try_each(&mut self)
        ensures { HasTried
            (IsBefore (self.old.nodes.board.chips + 1) (self.old.nodes.board.chips + 1))
            self.old self.new }
    {
        for one in 1..self.nodes.len() {
            self.try_later(one);
        }
    }

    /// Exchanges chips until no exchange of two lessens the travel. Each round tries each two of them, and each but the
    /// last lessens the travel.
    pub fn run(&mut self)
        ensures board { self.new.nodes.board ≡ self.old.nodes.board }
        ensures none { NoneIsUseful (travel_by self.old.table.now self.old.nodes.board)
            (self.old.nodes.board.chips + 1) self.new.nodes.numbers }
    {
        loop {
            let before = self.travel;
            self.try_each();
            if self.travel == before {
                return;
            }
        }
    }
}

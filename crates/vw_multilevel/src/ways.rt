//! How long a bit is under way from node to node.
use crate::numbers::NumberList;
use std::alloc::{AllocError, Global};
use vw_plan::{Board, Link};

/// One more than the number of the last node that a board may have.
const NODES: u32 = 33;

/// Where what is known of a way from a node to another stands.
fn place(from: u32, to: u32) -> u32 {
    from.saturating_mul(NODES).saturating_add(to)
}

/// How long a bit is under way from each node to each other, if it never waits: the delays of the links of a way with the
/// fewest of them. Of several ways it takes the one that wires take, by the least node at each step.
pub struct Ways {
    /// How many links a way has; the greatest number where none is known.
    links: NumberList,
    /// The node to which its first link leads.
    steps: NumberList,
    times: NumberList,
}

// Written out, since a derived drop is proved anew in each function where it runs.
impl Drop for Ways {
    fn drop(self) {
        let Ways {
            links: _,
            steps: _,
            times: _,
        } = self;
    }
}

impl Ways {
    /// The ways from each node to itself.
    fn none(alloc: Global) -> Result<Self, AllocError> {
        let mut links = NumberList::filled(alloc, NODES * NODES, u32::MAX)?;
        for node in 0..NODES {
            links.set(place(node, node), 0);
        }
        Ok(Ways {
            links,
            steps: NumberList::zeros(alloc, NODES * NODES)?,
            times: NumberList::zeros(alloc, NODES * NODES)?,
        })
    }

    /// The ways of a board.
    pub fn of(alloc: Global, board: &Board) -> Result<Self, AllocError> {
        let mut ways = Ways::none(alloc)?;
        for links in 0..NODES {
            if !ways.lengthen(board, links) {
                break;
            }
        }
        Ok(ways)
    }

    /// Finds the ways that have one link more than so many, and says whether there are any.
    fn lengthen(&mut self, board: &Board, links: u32) -> bool {
        let mut found = false;
        for link in board.links() {
            for to in 0..NODES {
                if self.follow(link, to, links) {
                    found = true;
                }
            }
        }
        found
    }

    /// Takes the way to a node over this link, where so many links follow and no other way is shorter or goes before it.
    fn follow(&mut self, link: &Link, to: u32, links: u32) -> bool {
        let here = place(link.from(), to);
        let there = place(link.to(), to);
        let many = links.saturating_add(1);
        let known = self.links.at(here);
        let goes_before = known == many && link.to() < self.steps.at(here);
        if self.links.at(there) != links || !(known > many || goes_before) {
            return false;
        }
        let time = self.times.at(there).saturating_add(link.delay());
        self.links.set(here, many);
        self.steps.set(here, link.to());
        self.times.set(here, time);
        true
    }

    /// How long a bit is under way from a node to another.
    pub fn time(&self, from: u32, to: u32) -> u32 {
        self.times.at(place(from, to))
    }
}

/// The least delay of a link.
pub fn least_delay(board: &Board) -> u32 {
    let mut least = u32::MAX;
    for link in board.links() {
        least = least.min(link.delay());
    }
    least
}

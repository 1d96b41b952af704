//! How many needed pairs go from each node to each other, and how far they go.
ghost use Rattle.std.specs.Prelude.{◌≡◌, ◌≤◌, ◌+◌, IfOk};
ghost use Rattle.vw_place.specs.Steps.Traffic.{IsTraffic, travel_by, travel_from};

use crate::node_list::NodeList;
use crate::placement::Placement;
use std::alloc::{AllocError, Global};
use std::marker::Model;
use vw_plan::node_of;
use vw_wires::needed;

/// How many needed pairs go from each node to each other. Contracts see it as the list of these numbers, row by row: the
/// row of the node that pairs come from has a place for each of 33 nodes.
pub struct PairTable {
    /// Row by row.
    counts: Vec<u32>,
}

impl Drop for PairTable {
    fn drop(self) {
        let PairTable { counts: _ } = self;
    }
}

impl Model for PairTable {
    ghost use Rattle.std.specs.Prelude.{List, ℕ};
    ghost use Rattle.vw_place.specs.Steps.Traffic.{IsPairTable};

    ghost Value = { List ℕ };

    ghost view = { λ table. table.counts.items };

    ghost invariant = { λ table. IsPairTable table.counts.items };
}

impl PairTable {
    /// The table of the needed pairs of a placement. It takes memory for these, and for a number for each two of 33 nodes.
    pub fn of(alloc: Global, placement: &Placement) -> Result<Self, AllocError>
        ensures { IfOk result (IsTraffic placement.now.ordered.now.flat placement.now.chip_of.now) }
    {
        let flat = placement.ordered.flat();
        let chip_of = placement.chip_of;
        let needs = needed(alloc, placement.ordered, chip_of)?;
        let mut counts = vec![in alloc; 0; 1089]?;
        for need in needs.as_slice() {
            let from = node_of(flat, chip_of, need.net());
            let place = (from * 33 + need.to()) as usize;
            counts[place] += 1;
        }
        Ok(PairTable { counts })
    }

    /// How far the pairs from a node go, with the nodes numbered by a list.
    fn travel_from(&self, nodes: &NodeList, from: usize) -> u64
        requires { from ≤ nodes.now.board.chips }
        ensures travel { result ≡ travel_from self.now nodes.now.board nodes.now.numbers from
            (nodes.now.board.chips + 1) }
        ensures low { result ≤ 2426535936 }
    {
        let mut travel = 0;
        for to in 0..nodes.len() {
            let pairs = self.counts[from * 33 + to];
            travel += pairs as u64 * nodes.distance(from, to) as u64;
        }
        travel
    }

    /// How far all pairs go, with the nodes numbered by a list.
    pub fn travel(&self, nodes: &NodeList) -> u64
        ensures { result ≡ travel_by self.now nodes.now.board nodes.now.numbers }
    {
        let mut travel = 0;
        for from in 0..nodes.len() {
            travel += self.travel_from(nodes, from);
        }
        travel
    }
}

//! From which microcycle on nets are where.
ghost use Rattle.std.specs.Prelude.{◌≡◌};
ghost use Rattle.vw_plan.specs.Lead.{lead, usable};
ghost use Rattle.vw_plan.specs.PlannedBoard.{home};
ghost use Rattle.vw_chain.specs.Timing.{IsNet, planned_of};

use crate::timed::Timed;
use vw_plan::node_of;
use vw_ready::LeadTable;

impl<'a> Timed<'a> {
    /// The node of a net.
    pub fn home(&self, net: u32) -> u32
        requires { IsNet self.now net }
        ensures { result ≡ home (planned_of self.now) net }
    {
        node_of(self.wired.ordered.flat(), self.wired.plan.chip_of(), net)
    }

    /// The microcycle from which on a node can use a net.
    pub fn usable(&self, node: u32, net: u32) -> u64
        requires { IsNet self.now net }
        ensures { result ≡ usable (planned_of self.now) node net }
    {
        let known = LeadTable {
            ordered: self.wired.ordered,
            chip_of: self.wired.plan.chip_of(),
            settle: self.wired.board.settle(),
            places: self.wired.wires,
            arrivals: self.arrivals,
            leads: self.leads,
        };
        known.usable(node, net)
    }

    /// The lead of a net at a node.
    pub fn lead(&self, node: u32, net: u32) -> u64
        requires { IsNet self.now net }
        ensures { result ≡ lead (planned_of self.now) node net }
    {
        if self.home(net) == node {
            self.leads[net as usize]
        } else {
            self.usable(node, net)
        }
    }
}

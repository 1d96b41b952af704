//! Back from a net at a node to what it waited for.
ghost use Rattle.std.specs.Prelude.{◌≡◌, ◌≢◌, ◌≤◌, ◌<◌, ◌⊎◌, length, IsTrue, IfOk, OnOk};
ghost use Rattle.std.specs.Bool.{OnFalse, OnTrue};
ghost use Rattle.std.specs.List.{All};
ghost use Rattle.vw_net.specs.Order.{is_among};
ghost use Rattle.vw_plan.specs.Lead.{lead};
ghost use Rattle.vw_plan.specs.PlannedBoard.{home};
ghost use Rattle.vw_chain.specs.Steps.{IsFirst, IsGateNumber, IsLastRead, IsThere, LeadsOn, chip_at, net_of};
ghost use Rattle.vw_chain.specs.Timing.{IsNet, planned_of};

use crate::chain::Step;
use crate::timed::Timed;
use std::alloc::AllocError;
use vw_net::Cell;

impl<'a> Timed<'a> {
    /// Goes back from a net at a node to its own node: over the wire that brings it, where the node is another.
    pub fn back_home(&self, node: u32, net: u32, steps: &mut Vec<Step>) -> Result<(), AllocError>
        requires net { IsNet self.now net }
        requires there { IsThere (planned_of self.now) node net }
        ensures { OnOk result (LeadsOn (planned_of self.now)
            steps.old.items net node steps.new.items net (home (planned_of self.now) net)) }
    {
        if self.home(net) == node {
            return Ok(());
        }
        if let Some(number) = self.wired.wires.first(net, node) {
            steps.push(Step::Wire { number })?;
        }
        Ok(())
    }

    /// Of the nets that a gate of a node reads, the one that is there last, or one of those.
    fn last_read(&self, node: u32, nets: &[u32]) -> u32
        requires some { 0 < length nets.now }
        requires nets { All (IsNet self.now) nets.now }
        ensures among { IsTrue (is_among nets.now result) }
        ensures last { All (λ net. lead (planned_of self.now) node net
            ≤ lead (planned_of self.now) node result) nets.now }
    {
        let mut last = nets[0];
        for net in nets {
            if self.lead(node, last) < self.lead(node, *net) {
                last = *net;
            }
        }
        last
    }

    /// The net that a gate waits for longest, of those that it reads. It waits for some.
    fn last_of_gate(&self, number: u32) -> u32
        requires gate { IsGateNumber (planned_of self.now) number }
        requires late { 0 < lead (planned_of self.now) (chip_at (planned_of self.now) number)
            (net_of (planned_of self.now) number) }
        ensures { IsLastRead (planned_of self.now) number result }
    {
        let node = self.wired.plan.chip_of()[number as usize];
        match &self.wired.ordered.flat().cells()[number as usize] {
            Cell::Gate { ins, .. } => self.last_read(node, ins.as_slice()),
            Cell::Latch { .. } => 0,
        }
    }

    /// Goes back over a gate that waits, to a net that it reads last, at that net's own node.
    fn back_over(&self, number: u32, steps: &mut Vec<Step>) -> Result<u32, AllocError>
        requires gate { IsGateNumber (planned_of self.now) number }
        requires late { 0 < lead (planned_of self.now) (chip_at (planned_of self.now) number)
            (net_of (planned_of self.now) number) }
        ensures read { IfOk result (λ net. IsLastRead (planned_of self.now) number net) }
        ensures way { IfOk result (λ net. LeadsOn (planned_of self.now)
            steps.old.items (net_of (planned_of self.now) number) (chip_at (planned_of self.now) number)
            steps.new.items net (home (planned_of self.now) net)) }
    {
        let made = self.wired.ordered.flat().inputs() + number;
        let net = self.last_of_gate(number);
        steps.push(Step::Gate { net: made })?;
        self.back_home(self.wired.plan.chip_of()[number as usize], net, steps)?;
        Ok(net)
    }

    /// Whether a net is that of a gate which waits for others.
    fn waits(&self, net: u32, number: u32) -> bool
        requires net { IsNet self.now net }
        requires number { number < length self.now.wired.now.ordered.now.flat.cells }
        ensures late { OnTrue result ((net ≡ net_of (planned_of self.now) number)
            × (0 < lead (planned_of self.now) (home (planned_of self.now) net) net)) }
        ensures other { OnFalse result ((net ≢ net_of (planned_of self.now) number) ⊎ IsFirst (planned_of self.now) net) }
    {
        net == self.wired.ordered.flat().inputs() + number && self.leads[net as usize] > 0
    }

    /// Goes back from a net at its own node to one that its own node has from the beginning on: one pass over the gates, against
    /// their order.
    pub fn back_to_first(&self, net: u32, steps: &mut Vec<Step>) -> Result<u32, AllocError>
        requires { IsNet self.now net }
        ensures first { IfOk result (IsFirst (planned_of self.now)) }
        ensures way { IfOk result (λ first. LeadsOn (planned_of self.now)
            steps.old.items net (home (planned_of self.now) net)
            steps.new.items first (home (planned_of self.now) first)) }
    {
        let mut first = net;
        let order = self.wired.ordered.order();
        for place in (0..order.len()).rev() {
            if self.waits(first, order[place]) {
                first = self.back_over(order[place], steps)?;
            }
        }
        Ok(first)
    }
}

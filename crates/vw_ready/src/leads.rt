//! The leads of nets, by what a lead table knows.
ghost use Rattle.std.specs.Prelude.{◌≡◌, ◌<◌, ◌+◌, ◌^◌, length, map, slice_get, slice_index};
ghost use Rattle.std.specs.List.{All};
ghost use Rattle.vw_net.specs.Lists.{greatest};
ghost use Rattle.vw_net.specs.Order.{is_gate};
ghost use Rattle.vw_plan.specs.Nets.{driving_cell, greatest_read};
ghost use Rattle.vw_ready.specs.Leads.{arrival_in, lead_in, nets_in, usable_in};

use crate::lead_table::LeadTable;
use vw_net::{Cell, Flat};
use vw_plan::node_of;

/// Whether a net is a gate's.
fn is_gate(flat: &Flat, net: u32) -> bool
    requires { net < flat.now.inputs + length flat.now.cells }
    ensures { result ≡ is_gate (driving_cell flat.now net) }
{
    if net < flat.inputs() {
        return false;
    }
    match &flat.cells()[(net - flat.inputs()) as usize] {
        Cell::Gate { .. } => true,
        Cell::Latch { .. } => false,
    }
}

impl<'a> LeadTable<'a> {
    /// One past the arrival of a net at a node; 0 where it isn't brought there.
    fn arrival(&self, node: u32, net: u32) -> u64
        ensures value { result ≡ arrival_in self.now net node }
        ensures low { result < 2 ^ 63 }
    {
        match self.places.first(net, node) {
            Some(place) => match self.arrivals.get(place) {
                Some(microcycle) => *microcycle,
                None => 0,
            },
            None => 0,
        }
    }

    /// The lead of a net at a node.
    fn lead(&self, node: u32, net: u32) -> u64
        requires { net < nets_in self.now }
        ensures value { result ≡ lead_in self.now node net }
        ensures low { result < 2 ^ 63 }
    {
        if node_of(self.ordered.flat(), self.chip_of, net) == node {
            return self.leads[net as usize];
        }
        self.arrival(node, net)
    }

    /// The greatest lead at a node of some nets.
    fn greatest_lead(&self, node: u32, nets: &[u32]) -> u64
        requires { All (λ net. net < nets_in self.now) nets.now }
        ensures value { result ≡ greatest (map (lead_in self.now node) nets.now) }
        ensures low { result < 2 ^ 63 }
    {
        let mut greatest = 0;
        for net in nets {
            let lead = self.lead(node, *net);
            if greatest < lead {
                greatest = lead;
            }
        }
        greatest
    }

    /// The lead of the net of a cell on the cell's chip: 0 for a latch.
    pub fn lead_of_cell(&self, number: u32) -> u64
        requires { number < length self.now.ordered.now.flat.cells }
        ensures value { result
            ≡ greatest_read (lead_in self.now (slice_index self.now.chip_of.now number))
            (slice_get self.now.ordered.now.flat.cells number) }
        ensures low { result < 2 ^ 63 }
    {
        let node = self.chip_of[number as usize];
        match &self.ordered.flat().cells()[number as usize] {
            Cell::Gate { ins, .. } => self.greatest_lead(node, ins.as_slice()),
            Cell::Latch { .. } => 0,
        }
    }

    /// The microcycle from which on a node can use a net.
    pub fn usable(&self, node: u32, net: u32) -> u64
        requires { net < nets_in self.now }
        ensures { result ≡ usable_in self.now node net }
    {
        let flat = self.ordered.flat();
        let lead = self.lead(node, net);
        if is_gate(flat, net) && node_of(flat, self.chip_of, net) == node {
            return lead + u64::from(self.settle);
        }
        lead
    }
}

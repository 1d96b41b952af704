//! The microcycles from which on nets are usable.
ghost use Rattle.std.specs.Prelude.{◌≡◌, ◌<◌, ◌+◌, length};
ghost use Rattle.vw_plan.specs.Lead.{usable};
ghost use Rattle.vw_check.specs.MicrocycleFaults.{late_latch, too_early};
ghost use Rattle.vw_ready.specs.LeadTables.{IsLeadTable, planned_in};

use crate::fault::PlanFault;
use vw_net::Cell;
use vw_plan::node_of;
use vw_ready::{LeadTable, Wired};

/// The microcycle from which on a node can use a net.
fn usable_at(wired: &Wired, known: &LeadTable, node: u32, net: u32) -> u64
    requires known { IsLeadTable (planned_in wired.now) known.now }
    requires net { net < wired.now.ordered.now.flat.inputs
        + length wired.now.ordered.now.flat.cells }
    ensures { result ≡ usable (planned_in wired.now) node net }
{
    known.usable(node, net)
}

/// The first wire whose first hop is before its net is usable.
pub fn too_early(wired: &Wired, known: &LeadTable) -> Option<PlanFault>
    requires { IsLeadTable (planned_in wired.now) known.now }
    ensures { result ≡ too_early (planned_in wired.now) }
{
    for (number, wire) in wired.plan.wires().iter().enumerate() {
        if let Some(hop) = wire.hops().first() {
            let node = node_of(wired.ordered.flat(), wired.plan.chip_of(), wire.net());
            let usable = usable_at(wired, known, node, wire.net());
            if hop.at() < usable {
                return Some(PlanFault::TooEarly(number as u32, hop.at(), usable));
            }
        }
    }
    None
}

/// The first latch that reads a net which is usable only after the period.
pub fn late_latch(wired: &Wired, known: &LeadTable) -> Option<PlanFault>
    requires { IsLeadTable (planned_in wired.now) known.now }
    ensures { result ≡ late_latch (planned_in wired.now) }
{
    for (number, cell) in wired.ordered.flat().cells().iter().enumerate() {
        if let Cell::Latch { d, .. } = cell {
            let node = wired.plan.chip_of()[number];
            let usable = usable_at(wired, known, node, *d);
            if wired.plan.period() < usable {
                return Some(PlanFault::LateLatch(number as u32, usable));
            }
        }
    }
    None
}

//! The arrivals by the wires of a plan, and the leads of nets at their own nodes.
ghost use Rattle.std.specs.Prelude.{◌≡◌, ◌<◌, ◌+◌, ◌^◌, length, slice_get, slice_index, IfOk};
ghost use Rattle.std.specs.List.{All};
ghost use Rattle.vw_plan.specs.Nets.{greatest_read};
ghost use Rattle.vw_ready.specs.LeadTables.{AreArrivals, AreLeads, lead_from_homes, planned_in};
ghost use Rattle.vw_ready.specs.Pairs.{HasPairs};
ghost use Rattle.vw_ready.specs.Wires.{wire_pairs};

use crate::lead_table::LeadTable;
use crate::pairs::PairTable;
use crate::wired::Wired;
use std::alloc::{AllocError, Global};
use vw_plan::{Plan, leads_follow_drivers};

/// The first wire that brings each net to each node.
pub fn wire_table(alloc: Global, plan: &Plan) -> Result<PairTable, AllocError>
    ensures { IfOk result (λ table. HasPairs (wire_pairs plan.now.wires) table.places) }
{
    let mut pairs = Vec::with_capacity(alloc, plan.wires().len())?;
    for wire in plan.wires() {
        pairs.push((wire.net(), wire.to()))?;
    }
    PairTable::of(alloc, &pairs)
}

/// One past the arrival by each wire.
pub fn arrivals_of(alloc: Global, wired: &Wired) -> Result<Vec<u64>, AllocError>
    ensures { IfOk result (λ arrivals. AreArrivals (planned_in wired.now) arrivals.items) }
{
    let mut arrivals = Vec::with_capacity(alloc, wired.plan.wires().len())?;
    for wire in wired.plan.wires() {
        arrivals.push(wired.links.after_last(wire.hops()))?;
    }
    Ok(arrivals)
}

/// The lead of the net of a cell on the cell's chip, from arrivals, and leads so far.
fn lead_of_cell(wired: &Wired, arrivals: &[u64], leads: &[u64], number: u32) -> u64
    requires number { number < length wired.now.ordered.now.flat.cells }
    requires arrivals { AreArrivals (planned_in wired.now) arrivals.now }
    requires nets { length leads.now
        ≡ wired.now.ordered.now.flat.inputs + length wired.now.ordered.now.flat.cells }
    requires low { All (λ lead. lead < 2 ^ 63) leads.now }
    ensures value { result ≡ greatest_read (lead_from_homes (planned_in wired.now) leads.now
        (slice_index wired.now.plan.now.chip_of number))
        (slice_get wired.now.ordered.now.flat.cells number) }
    ensures few { result < 2 ^ 63 }
{
    let known = LeadTable {
        ordered: wired.ordered,
        chip_of: wired.plan.chip_of(),
        settle: wired.board.settle(),
        places: wired.wires,
        arrivals,
        leads,
    };
    known.lead_of_cell(number)
}

/// The lead of each net at its own node, by the number of the net: one pass over the gates in their order.
pub fn home_leads(alloc: Global, wired: &Wired, arrivals: &[u64]) -> Result<Vec<u64>, AllocError>
    requires { AreArrivals (planned_in wired.now) arrivals.now }
    ensures { IfOk result (λ leads. AreLeads (planned_in wired.now) leads.items) }
{
    leads_follow_drivers();
    let flat = wired.ordered.flat();
    let inputs = flat.inputs() as usize;
    let mut leads = vec![in alloc; 0; inputs + flat.cells().len()]?;
    for number in wired.ordered.order() {
        let lead = lead_of_cell(wired, arrivals, leads.as_slice(), *number);
        leads[inputs + *number as usize] = lead;
    }
    Ok(leads)
}

//! Wires that are missing, and wires that aren't needed.
ghost use Rattle.std.specs.Prelude.{◌≡◌, ◌≤◌, length, IfOk};
ghost use Rattle.std.specs.List.{All};
ghost use Rattle.vw_ready.specs.Pairs.{HasPairs};
ghost use Rattle.vw_check.specs.Steps.Tables.{need_pairs};
ghost use Rattle.vw_ready.specs.Wires.{wire_pairs};
ghost use Rattle.vw_check.specs.Steps.Wires.{first_missing, first_extra, is_extra};
ghost use Rattle.vw_check.specs.Faults.{wire_fault};

use crate::fault::PlanFault;
use std::alloc::{AllocError, Global};
use vw_net::Ordered;
use vw_plan::{Need, Plan, Wire, needed_pairs_are_needed};
use vw_ready::PairTable;
use vw_wires::needed;

/// The place of each needed pair.
fn need_table(alloc: Global, needs: &[Need]) -> Result<PairTable, AllocError>
    ensures { IfOk result (λ table. HasPairs (need_pairs needs.now) table.places) }
{
    let mut pairs = Vec::with_capacity(alloc, needs.len())?;
    for need in needs {
        pairs.push((need.net(), need.to()))?;
    }
    PairTable::of(alloc, &pairs)
}

/// The first of some needed pairs that has no wire.
fn missing_wire(needs: &[Need], wires: &PairTable) -> Option<PlanFault>
    ensures { result ≡ first_missing wires.now.places needs.now }
{
    for need in needs {
        if wires.first(need.net(), need.to()).is_none() {
            return Some(PlanFault::MissingWire(need.net(), need.to()));
        }
    }
    None
}

/// Whether a wire's pair isn't needed, or has an earlier wire.
fn is_extra(number: usize, wire: &Wire, needs: &PairTable, wires: &PairTable) -> bool
    ensures { result ≡ is_extra needs.now.places wires.now.places number wire.now }
{
    if needs.first(wire.net(), wire.to()).is_none() {
        return true;
    }
    wires.first(wire.net(), wire.to()) != Some(number)
}

/// The first wire whose pair isn't needed, or has an earlier wire.
fn extra_wire(plan: &Plan, needs: &PairTable, wires: &PairTable) -> Option<PlanFault>
    ensures { result ≡ first_extra needs.now.places wires.now.places plan.now.wires }
{
    for (number, wire) in plan.wires().iter().enumerate() {
        if is_extra(number, wire, needs, wires) {
            return Some(PlanFault::ExtraWire(number as u32));
        }
    }
    None
}

/// The first fault of the wires as a whole.
pub fn wire_fault(
    alloc: Global,
    ordered: &Ordered,
    plan: &Plan,
    wires: &PairTable,
) -> Result<Option<PlanFault>, AllocError>
    requires each { length plan.now.chip_of ≡ length ordered.now.flat.cells }
    requires chips { All (λ chip. 1 ≤ chip) plan.now.chip_of }
    requires wires { HasPairs (wire_pairs plan.now.wires) wires.now.places }
    ensures { IfOk result (λ found. found ≡ wire_fault ordered.now.flat plan.now) }
{
    needed_pairs_are_needed();
    let needs = needed(alloc, ordered, plan.chip_of())?;
    if let Some(fault) = missing_wire(needs.as_slice(), wires) {
        return Ok(Some(fault));
    }
    let table = need_table(alloc, needs.as_slice())?;
    Ok(extra_wire(plan, &table, wires))
}

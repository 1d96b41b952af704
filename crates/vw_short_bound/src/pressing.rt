//! What pins make of the inlets that are waited for.
ghost use Rattle.std.specs.Prelude.{◌≡◌, ◌≤◌, ◌<◌, ◌^◌, ℕ, map, slice_index, IfOk};
ghost use Rattle.std.specs.List.{All};
ghost use Rattle.vw_bound.specs.Given.{design_in};
ghost use Rattle.vw_bound.specs.Tables.{AreLow};
ghost use Rattle.vw_bound.specs.Times.{there_by};
ghost use Rattle.vw_short_bound.specs.Steps.Inlets.{AreInletsOf, AreTables, IsBelowPeriods};
ghost use Rattle.vw_short_bound.specs.Steps.Plans.{AreSoonest, IsPressing};

use crate::inlets::Inlets;
use crate::press::pressed;
use std::alloc::{AllocError, Global};
use vw_bound::{Placed, there};

/// When each of some nets can be at a node.
fn arrivals(
    alloc: Global,
    placed: &Placed,
    soon: &[u64],
    node: u32,
    nets: &[u32],
) -> Result<Vec<u64>, AllocError>
    requires node { node ≤ placed.now.board.now.chips }
    requires low { AreLow soon.now }
    ensures times { IfOk result (λ times. times.items
        ≡ map (λ net. there_by (design_in placed.now) (slice_index soon.now) net node) nets.now) }
    ensures low { IfOk result (λ times. All (λ time. time < 2 ^ 63) times.items) }
{
    let mut times = Vec::with_capacity(alloc, nets.len())?;
    for net in nets {
        times.push(there(placed, soon, *net, node))?;
    }
    Ok(times)
}

/// A microcycle before which not all inlets of a node are there that have their bits in a row.
pub fn pressed_at(
    alloc: Global,
    placed: &Placed,
    soon: &[u64],
    node: u32,
    inlets: &Inlets,
    row: &[u64],
) -> Result<u64, AllocError>
    requires node { node ≤ placed.now.board.now.chips }
    requires soon { AreSoonest (design_in placed.now) soon.now }
    requires inlets { AreInletsOf (design_in placed.now) node inlets.now }
    ensures { IfOk result (IsPressing (design_in placed.now) node inlets.now.nets row.now) }
{
    let times = arrivals(alloc, placed, soon, node, inlets.nets())?;
    let mut most = 0;
    for class in inlets.classes() {
        most = most.max(pressed(&times, row, class.members(), class.pins()));
    }
    Ok(most)
}

/// A microcycle before which not all inlets of all nodes are there.
pub fn pressed_nodes(
    alloc: Global,
    placed: &Placed,
    soon: &[u64],
    tables: &[Inlets],
) -> Result<u64, AllocError>
    requires soon { AreSoonest (design_in placed.now) soon.now }
    requires tables { AreTables (design_in placed.now) tables.now }
    ensures { IfOk result (IsBelowPeriods (design_in placed.now)) }
{
    let mut most = 0;
    for node in 0..placed.board.chips() + 1 {
        let inlets = &tables[node as usize];
        let all = vec![in alloc; u64::MAX; inlets.nets().len() / 64 + 1]?;
        most = most.max(pressed_at(alloc, placed, soon, node, inlets, &all)?);
    }
    Ok(most)
}

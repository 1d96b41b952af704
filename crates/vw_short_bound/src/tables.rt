//! The inlets of each node.
ghost use Rattle.std.specs.Prelude.{◌≡◌, ◌≤◌, ◌==◌, IfOk, map};
ghost use Rattle.std.specs.List.{All, filter};
ghost use Rattle.vw_plan.specs.Needs.{needed_pairs};
ghost use Rattle.vw_bound.specs.Given.{design_in};
ghost use Rattle.vw_bound.specs.Tables.{AreLow};
ghost use Rattle.vw_short_bound.specs.Steps.Inlets.{AreInletsOf, AreTables, IsClassOf, inlet_nets, inlet_pairs};
ghost use Rattle.vw_short_bound.specs.Steps.Plans.{AreInlets};

use crate::classes::classes_of;
use crate::inlets::{Inlet, Inlets, Spot};
use std::alloc::{AllocError, Global};
use vw_board::Distances;
use vw_bound::{Placed, there};
use vw_net::Sequence;
use vw_plan::Need;

/// The nets that are needed at a node, with the times by a table.
fn listed(
    alloc: Global,
    placed: &Placed,
    table: &[u64],
    needs: &[Need],
    node: u32,
) -> Result<Vec<Inlet>, AllocError>
    requires node { node ≤ placed.now.board.now.chips }
    requires low { AreLow table.now }
    ensures { IfOk result (λ inlets. inlet_pairs node inlets.items
        ≡ filter (λ need. need.to == node) needs.now) }
{
    let mut inlets = Vec::new(alloc);
    for need in needs {
        if need.to() == node {
            inlets.push(Inlet::make(there(placed, table, need.net(), node), need.net()))?;
        }
    }
    Ok(inlets)
}

/// The nets of inlets.
fn nets_of(alloc: Global, inlets: &[Inlet]) -> Result<Vec<u32>, AllocError>
    ensures { IfOk result (λ nets. nets.items ≡ inlet_nets inlets.now) }
{
    let mut nets = Vec::with_capacity(alloc, inlets.len())?;
    for inlet in inlets {
        nets.push(inlet.net())?;
    }
    Ok(nets)
}

/// Where each net stands, by the number of the net.
fn spots_of(alloc: Global, nets: &[u32]) -> Result<Vec<Spot>, AllocError> {
    let mut spots = Vec::with_capacity(alloc, nets.len())?;
    for (place, net) in nets.iter().enumerate() {
        spots.push(Spot::make(*net, place))?;
    }
    spots.sort()?;
    Ok(spots)
}

/// The nets of the inlets of a node, by their times.
fn nets_at(
    alloc: Global,
    placed: &Placed,
    table: &[u64],
    needs: &[Need],
    node: u32,
) -> Result<Vec<u32>, AllocError>
    requires node { node ≤ placed.now.board.now.chips }
    requires low { AreLow table.now }
    requires needs { needs.now
        ≡ needed_pairs placed.now.ordered.now.flat placed.now.chip_of.now }
    ensures { IfOk result (λ nets. AreInlets (design_in placed.now) node nets.items) }
{
    let mut inlets = listed(alloc, placed, table, needs, node)?;
    inlets.sort()?;
    let nets = nets_of(alloc, &inlets)?;
    Ok(nets)
}

/// The inlets of a node.
fn inlets_at(
    alloc: Global,
    placed: &Placed,
    distances: &Distances,
    table: &[u64],
    needs: &[Need],
    node: u32,
) -> Result<Inlets, AllocError>
    requires node { node ≤ placed.now.board.now.chips }
    requires distances { distances.now ≡ placed.now.board.now }
    requires low { AreLow table.now }
    requires needs { needs.now
        ≡ needed_pairs placed.now.ordered.now.flat placed.now.chip_of.now }
    ensures { IfOk result (AreInletsOf (design_in placed.now) node) }
{
    let nets = nets_at(alloc, placed, table, needs, node)?;
    let spots = spots_of(alloc, &nets)?;
    let classes = classes_of(alloc, placed, distances, node, &nets)?;
    Ok(Inlets::make(
        Sequence::of(nets),
        Sequence::of(spots),
        Sequence::of(classes),
    ))
}

/// The inlets of each node.
pub fn tables_of(
    alloc: Global,
    placed: &Placed,
    distances: &Distances,
    table: &[u64],
    needs: &[Need],
) -> Result<Vec<Inlets>, AllocError>
    requires distances { distances.now ≡ placed.now.board.now }
    requires low { AreLow table.now }
    requires needs { needs.now
        ≡ needed_pairs placed.now.ordered.now.flat placed.now.chip_of.now }
    ensures { IfOk result (λ tables. AreTables (design_in placed.now) tables.items) }
{
    let mut tables = Vec::new(alloc);
    for node in 0..placed.board.chips() + 1 {
        tables.push(inlets_at(alloc, placed, distances, table, needs, node)?)?;
    }
    Ok(tables)
}

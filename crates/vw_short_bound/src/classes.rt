//! Classes of the inlets of a node.
ghost use Rattle.std.specs.Prelude.{◌≡◌, ◌≤◌, ◌<◌, ◌+◌, ℕ, length, slice_index, slice_index_or, false, IfOk, IsTrue};
ghost use Rattle.std.specs.List.{All};
ghost use Rattle.vw_bound.specs.Given.{design_in};
ghost use Rattle.vw_bound.specs.PlacedDesigns.{home_in};
ghost use Rattle.vw_short_bound.specs.Steps.Inlets.{IsClassOf, IsCovered};
ghost use Rattle.vw_short_bound.specs.Steps.Rows.{has};

use crate::inlets::Class;
use crate::lasts::{covers, last_pins};
use crate::rows::add;
use std::alloc::{AllocError, Global};
use vw_board::Distances;
use vw_bound::{Placed, home};
use vw_net::Sequence;

/// For each node, whether the last links from it are among those from a source.
fn covered(
    alloc: Global,
    placed: &Placed,
    distances: &Distances,
    node: u32,
    source: u32,
) -> Result<Vec<bool>, AllocError>
    requires distances { distances.now ≡ placed.now.board.now }
    requires node { node ≤ placed.now.board.now.chips }
    requires source { source ≤ placed.now.board.now.chips }
    ensures { IfOk result (λ wide. (home : ℕ) → IsTrue (slice_index_or wide.items home false)
        → IsCovered (design_in placed.now) node source home) }
{
    let mut wide = Vec::new(alloc);
    for home in 0..placed.board.chips() + 1 {
        wide.push(covers(placed.board, distances, source, home, node))?;
    }
    Ok(wide)
}

/// The inlets whose last links are among those from a source.
fn members_of(
    alloc: Global,
    placed: &Placed,
    nets: &[u32],
    wide: &[bool],
) -> Result<Vec<u64>, AllocError>
    ensures { IfOk result (λ row. (place : ℕ) → IsTrue (has row.items place) → place < length nets.now
        → IsTrue (slice_index_or wide.now (home_in (design_in placed.now) (slice_index nets.now place)) false)) }
{
    let mut row = vec![in alloc; 0; nets.len() / 64 + 1]?;
    for place in 0..nets.len() {
        if let Some(true) = wide.get(home(placed, nets[place]) as usize) {
            add(&mut row, place);
        }
    }
    Ok(row)
}

/// Whether one of some nets comes from a node.
fn come_from(placed: &Placed, nets: &[u32], source: u32) -> bool {
    for net in nets {
        if home(placed, *net) == source {
            return true;
        }
    }
    false
}

/// Whether no class has these pins and members.
fn is_new(classes: &[Class], pins: u64, members: &[u64]) -> bool {
    for class in classes {
        if class.pins() == pins && class.members() == members {
            return false;
        }
    }
    true
}

/// The class of a source.
fn class_of(
    alloc: Global,
    placed: &Placed,
    distances: &Distances,
    node: u32,
    nets: &[u32],
    source: u32,
) -> Result<Class, AllocError>
    requires distances { distances.now ≡ placed.now.board.now }
    requires node { node ≤ placed.now.board.now.chips }
    requires source { source ≤ placed.now.board.now.chips }
    ensures { IfOk result (IsClassOf (design_in placed.now) node nets.now) }
{
    let wide = covered(alloc, placed, distances, node, source)?;
    let members = members_of(alloc, placed, nets, &wide)?;
    let pins = last_pins(placed.board, distances, source, node);
    Ok(Class::make(source, pins, Sequence::of(members)))
}

/// A class for each source of inlets, but that no two are the same.
pub fn classes_of(
    alloc: Global,
    placed: &Placed,
    distances: &Distances,
    node: u32,
    nets: &[u32],
) -> Result<Vec<Class>, AllocError>
    requires distances { distances.now ≡ placed.now.board.now }
    requires node { node ≤ placed.now.board.now.chips }
    ensures { IfOk result (λ classes. All (IsClassOf (design_in placed.now) node nets.now) classes.items) }
{
    let mut classes = Vec::new(alloc);
    for source in 0..placed.board.chips() + 1 {
        if come_from(placed, nets, source) {
            let class = class_of(alloc, placed, distances, node, nets, source)?;
            if is_new(&classes, class.pins(), class.members()) {
                classes.push(class)?;
            }
        }
    }
    Ok(classes)
}

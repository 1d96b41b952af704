//! The needed pairs of a placement, and their depths.
ghost use Rattle.std.specs.Prelude.{◌≡◌, ◌≤◌, length, map, IfOk};
ghost use Rattle.std.specs.List.{All};
ghost use Rattle.vw_plan.specs.Needs.{depth, needed_pairs};

use crate::crossing::reads_across;
use crate::table::depth_table;
use std::alloc::{AllocError, Global};
use vw_net::{Ordered, Sequence};
use vw_plan::{Need, needed_pairs_are_needed};

/// The needed pairs of a placement: each net with each node other than its own where a gate or a latch reads it, and
/// each net of an output with the host, unless it is an input. Each pair stands once, and they come by net and then by
/// node. It takes memory for each read of a net of another node, lists them in one pass, and sorts them.
pub fn needed(
    alloc: Global,
    ordered: &Ordered,
    chip_of: &[u32],
) -> Result<Sequence<Need>, AllocError>
    requires each { length chip_of.now ≡ length ordered.now.flat.cells }
    requires chips { All (λ chip. 1 ≤ chip) chip_of.now }
    ensures { IfOk result (λ needs. needs ≡ needed_pairs ordered.now.flat chip_of.now) }
{
    let mut needs = reads_across(alloc, ordered.flat(), chip_of)?;
    needs.sort()?;
    needs.dedup();
    needed_pairs_are_needed();
    Ok(Sequence::of(needs))
}

/// The depth of each needed pair: how many wires must come one after the other, within one clock, before the net has its
/// value. It takes memory for a number for each net and one for each pair, and goes over each gate and each of its inputs
/// once.
pub fn depths(
    alloc: Global,
    ordered: &Ordered,
    chip_of: &[u32],
    needs: &[Need],
) -> Result<Sequence<u32>, AllocError>
    requires each { length chip_of.now ≡ length ordered.now.flat.cells }
    requires chips { All (λ chip. 1 ≤ chip) chip_of.now }
    requires needs { needs.now ≡ needed_pairs ordered.now.flat chip_of.now }
    ensures { IfOk result (λ depths. depths
        ≡ map (λ need. depth ordered.now.flat chip_of.now need.net) needs.now) }
{
    let table = depth_table(alloc, ordered, chip_of)?;
    let mut depths = Vec::with_capacity(alloc, needs.len())?;
    for need in needs {
        let depth = match table.get(need.net() as usize) {
            Some(depth) => *depth,
            None => 0,
        };
        depths.push(depth)?;
    }
    Ok(Sequence::of(depths))
}

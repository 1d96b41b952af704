//! The latches of each node.
ghost use Rattle.std.specs.Prelude.{◌≡◌, ◌<◌, ◌++◌, ◌∷◌, ◌==◌, ℕ, suc, [], length, map, slice_index_or, if◌then◌else◌, IfOk, OnOk};
ghost use Rattle.vw_plan.specs.PlannedBoard.{planned_board};
ghost use Rattle.vw_prog.specs.Coding.{own_latch, owned_of};
ghost use Rattle.vw_prog.specs.Due.{own_latches};

use std::alloc::{AllocError, Global};
use vw_net::Cell;
use vw_plan::Checked;

/// A latch of a node.
#[derive(Clone, Copy)]
pub struct OwnLatch {
    /// Its net.
    pub net: u32,
    /// The net that it takes its next bit from.
    pub taken: u32,
    /// Its number among all latches.
    pub number: u32,
}

/// So many empty lists.
fn no_latches(alloc: Global, nodes: u32) -> Result<Vec<Vec<OwnLatch>>, AllocError>
    ensures count { IfOk result (λ lists. length (owned_of lists.items) ≡ nodes) }
    ensures each { IfOk result (λ lists. (node : ℕ) → slice_index_or (owned_of lists.items) node [] ≡ []) }
{
    let mut lists = Vec::new(alloc);
    for _ in 0..nodes {
        lists.push(Vec::new(alloc))?;
    }
    Ok(lists)
}

/// Gives a node a latch more, where there is such a node.
fn give(lists: &mut Vec<Vec<OwnLatch>>, node: u32, latch: OwnLatch) -> Result<(), AllocError>
    ensures count { OnOk result (length (owned_of lists.new.items) ≡ length (owned_of lists.old.items)) }
    ensures each { OnOk result ((other : ℕ) → other < length (owned_of lists.old.items)
        → slice_index_or (owned_of lists.new.items) other []
        ≡ (if node == other then slice_index_or (owned_of lists.old.items) other [] ++ latch ∷ []
        else slice_index_or (owned_of lists.old.items) other [])) }
{
    let node = node as usize;
    if node < lists.len() {
        lists[node].push(latch)?;
    }
    Ok(())
}

/// The latches of each node, in the order of the cells.
pub fn owned_latches(alloc: Global, checked: &Checked) -> Result<Vec<Vec<OwnLatch>>, AllocError>
    ensures count { IfOk result (λ lists. length (owned_of lists.items) ≡ suc checked.now.board.chips) }
    ensures each { IfOk result (λ lists. (node : ℕ) → node < suc checked.now.board.chips
        → slice_index_or (owned_of lists.items) node []
        ≡ map (own_latch checked.now.ordered.flat)
        (own_latches (planned_board checked.now.ordered checked.now.board checked.now.plan) node)) }
{
    let flat = checked.ordered().flat();
    let chip_of = checked.plan().chip_of();
    let mut lists = no_latches(alloc, checked.board().chips() + 1)?;
    let mut latches = 0;
    for (number, cell) in flat.cells().iter().enumerate() {
        if let Cell::Latch { d, .. } = cell {
            let latch = OwnLatch {
                net: flat.inputs() + number as u32,
                taken: *d,
                number: latches,
            };
            give(&mut lists, chip_of[number], latch)?;
            latches += 1;
        }
    }
    Ok(lists)
}

//! Cuts that need fewer tables, given the cuts of all other nets. In the field: exact area.
use crate::candidates::Candidates;
use crate::choice::{Choice, is_table};
use crate::cut::Cut;
use crate::lists::{add, at, set};
use crate::readers::gate_ins;
use std::alloc::{AllocError, Global};
use vw_net::{Ordered, TRUTH_TABLE_INPUTS};

/// How many leaves are followed at most for one cut.
const MOST_FOLLOWED: u32 = 256;

/// What was followed for one cut.
#[derive(Drop)]
struct Trail {
    /// The nets that are still to be followed.
    waiting: Vec<u32>,
    /// The nets whose readers were counted.
    counted: Vec<u32>,
    tables: u32,
}

/// Goes once over all gates that something reads, and gives each the cut that asks for the fewest tables.
pub fn improve(
    alloc: Global,
    ordered: &Ordered,
    candidates: &Candidates,
    choice: &mut Choice,
) -> Result<(), AllocError> {
    let flat = ordered.flat();
    let mut trail = Trail {
        waiting: Vec::new(alloc),
        counted: Vec::new(alloc),
        tables: 0,
    };
    for number in ordered.order() {
        let net = flat.inputs().saturating_add(*number);
        let narrow = gate_ins(flat, *number).len() <= TRUTH_TABLE_INPUTS as usize;
        if narrow && at(&choice.readers, net) > 0 {
            improve_one(candidates, choice, net, &mut trail)?;
        }
    }
    choice.count(ordered);
    Ok(())
}

/// Gives one net the best of its cuts.
fn improve_one(
    candidates: &Candidates,
    choice: &mut Choice,
    net: u32,
    trail: &mut Trail,
) -> Result<(), AllocError> {
    let old = choice.cut(net);
    leave(choice, &old, trail)?;
    let mut best = old;
    let mut least = u32::MAX;
    for cut in candidates.cuts(net) {
        if is_table(cut, net) {
            take(choice, cut, trail)?;
            undo(choice, trail);
            if trail.tables < least {
                least = trail.tables;
                best = *cut;
            }
        }
    }
    take(choice, &best, trail)?;
    choice.set(net, &best);
    Ok(())
}

/// Begins with the leaves of a cut.
fn begin(cut: &Cut, trail: &mut Trail) -> Result<(), AllocError> {
    trail.waiting.clear();
    trail.counted.clear();
    trail.tables = 0;
    wait_for(cut, trail)
}

/// The leaves of a cut are followed later.
fn wait_for(cut: &Cut, trail: &mut Trail) -> Result<(), AllocError> {
    for leaf in cut.leaves() {
        trail.waiting.push(*leaf)?;
    }
    Ok(())
}

/// Counts one reader more of each leaf of a cut, and of what is needed for the first of them. The tables that are needed anew
/// are counted.
fn take(choice: &mut Choice, cut: &Cut, trail: &mut Trail) -> Result<(), AllocError> {
    begin(cut, trail)?;
    for _ in 0..MOST_FOLLOWED {
        let Some(net) = trail.waiting.pop() else {
            break;
        };
        let before = at(&choice.readers, net);
        add(&mut choice.readers, net, 1);
        trail.counted.push(net)?;
        let its = choice.cut(net);
        if before == 0 && is_table(&its, net) {
            trail.tables = trail.tables.saturating_add(1);
            wait_for(&its, trail)?;
        }
    }
    Ok(())
}

/// Counts one reader less of each net that was counted.
fn undo(choice: &mut Choice, trail: &Trail) {
    for net in &trail.counted {
        lose(choice, *net);
    }
}

/// Counts one reader less, and tells whether none is left.
fn lose(choice: &mut Choice, net: u32) -> bool {
    let left = at(&choice.readers, net).saturating_sub(1);
    set(&mut choice.readers, net, left);
    left == 0
}

/// Counts one reader less of each leaf of a cut, and of what only a leaf without readers needs.
fn leave(choice: &mut Choice, cut: &Cut, trail: &mut Trail) -> Result<(), AllocError> {
    begin(cut, trail)?;
    for _ in 0..MOST_FOLLOWED {
        let Some(net) = trail.waiting.pop() else {
            break;
        };
        let unread = lose(choice, net);
        let its = choice.cut(net);
        if unread && is_table(&its, net) {
            wait_for(&its, trail)?;
        }
    }
    Ok(())
}

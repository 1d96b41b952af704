//! How many readers each net has.
use crate::lists::{add, at};
use std::alloc::{AllocError, Global};
use vw_net::{Cell, Flat, Ordered};

/// How many nets there are.
pub fn net_count(flat: &Flat) -> u32 {
    flat.inputs() + flat.cells().len() as u32
}

/// The nets that a gate reads; none of a latch.
pub fn gate_ins(flat: &Flat, number: u32) -> &[u32] {
    match flat.cells().get(number as usize) {
        Some(Cell::Gate { ins, .. }) => ins.as_slice(),
        _ => &[],
    }
}

/// The readers of each net: outputs and latches, and gates. The readers of a gate with one input count as those of the net that
/// it reads.
pub fn fan_outs(alloc: Global, ordered: &Ordered) -> Result<Vec<u32>, AllocError> {
    let flat = ordered.flat();
    let mut readers = vec![in alloc; 0; net_count(flat) as usize]?;
    count_seen(flat, &mut readers);
    for number in ordered.order().iter().rev() {
        let ins = gate_ins(flat, *number);
        let mut amount = 1;
        if ins.len() == 1 {
            amount = at(&readers, flat.inputs().saturating_add(*number));
        }
        for net in ins {
            add(&mut readers, *net, amount);
        }
    }
    Ok(readers)
}

/// Counts outputs, and what latches take.
pub fn count_seen(flat: &Flat, readers: &mut [u32]) {
    for net in flat.outputs() {
        add(readers, *net, 1);
    }
    for cell in flat.cells() {
        if let Cell::Latch { d, .. } = cell {
            add(readers, *d, 1);
        }
    }
}

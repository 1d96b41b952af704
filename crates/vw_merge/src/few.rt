//! The best few cuts of a net.
use crate::cut::Cut;
use std::alloc::{AllocError, Global};
use std::mem;

/// How many cuts of a net are kept.
const KEPT: usize = 8;

/// The best cuts so far, the best one first.
#[derive(Drop)]
pub struct Few {
    cuts: Vec<Cut>,
}

impl Few {
    /// None yet.
    pub fn none(alloc: Global) -> Self {
        Few {
            cuts: Vec::new(alloc),
        }
    }

    /// Forgets all.
    pub fn clear(&mut self) {
        self.cuts.clear();
    }

    /// The cuts, the best one first.
    pub fn cuts(&self) -> &[Cut] {
        self.cuts.as_slice()
    }

    /// Adds a cut, unless it is there or enough are better.
    pub fn add(&mut self, cut: &Cut) -> Result<(), AllocError> {
        if is_among(&self.cuts, cut) {
            return Ok(());
        }
        let carried = carry(&mut self.cuts, cut);
        if self.cuts.len() < KEPT {
            self.cuts.push(carried)?;
        }
        Ok(())
    }
}

/// Whether a cut with the same leaves is among these.
fn is_among(cuts: &[Cut], cut: &Cut) -> bool {
    for other in cuts {
        if other.rank == cut.rank && other.is_same(cut) {
            return true;
        }
    }
    false
}

/// Puts a cut in front of those that are worse, and hands back the last one.
fn carry(cuts: &mut [Cut], cut: &Cut) -> Cut {
    let mut carried = *cut;
    for i in 0..cuts.len() {
        if let Some(here) = cuts.get_mut(i) {
            if carried.rank < here.rank {
                mem::swap(here, &mut carried);
            }
        }
    }
    carried
}

//! Which gates become tables, and over which nets.
use crate::candidates::Candidates;
use crate::cut::Cut;
use crate::lists::{add, at};
use crate::readers::{count_seen, gate_ins, net_count};
use std::alloc::{AllocError, Global};
use vw_net::{Ordered, TRUTH_TABLE_INPUTS};

/// For each net a cut; and how many tables, outputs and latches read the net, where each gate that is read becomes the table
/// over its cut.
#[derive(Drop)]
pub struct Choice {
    pub cuts: Vec<Cut>,
    pub readers: Vec<u32>,
}

impl Choice {
    /// The first cut of each net. The cut of a net that gets no table is the net itself.
    pub fn first(
        alloc: Global,
        ordered: &Ordered,
        candidates: &Candidates,
    ) -> Result<Self, AllocError> {
        let flat = ordered.flat();
        let nets = net_count(flat);
        let mut cuts = Vec::with_capacity(alloc, nets as usize)?;
        for net in 0..nets {
            cuts.push(first_cut(candidates, net))?;
        }
        let mut choice = Choice {
            cuts,
            readers: vec![in alloc; 0; nets as usize]?,
        };
        choice.count(ordered);
        Ok(choice)
    }

    /// The cut of a net.
    pub fn cut(&self, net: u32) -> Cut {
        match self.cuts.get(net as usize) {
            Some(cut) => *cut,
            None => Cut::none(),
        }
    }

    /// Gives a net another cut.
    pub fn set(&mut self, net: u32, cut: &Cut) {
        if let Some(old) = self.cuts.get_mut(net as usize) {
            *old = *cut;
        }
    }

    /// Counts the readers of each net, from the outputs and latches back.
    pub fn count(&mut self, ordered: &Ordered) {
        let flat = ordered.flat();
        for readers in &mut self.readers {
            *readers = 0;
        }
        count_seen(flat, &mut self.readers);
        for number in ordered.order().iter().rev() {
            let net = flat.inputs().saturating_add(*number);
            if at(&self.readers, net) > 0 {
                self.count_reads(net, gate_ins(flat, *number));
            }
        }
    }

    /// Counts what the table of a net reads: the leaves of its cut, or all that its gate reads where that is wide.
    fn count_reads(&mut self, net: u32, ins: &[u32]) {
        if ins.len() > TRUTH_TABLE_INPUTS as usize {
            add_all(ins, &mut self.readers);
            return;
        }
        let cut = self.cut(net);
        add_all(cut.leaves(), &mut self.readers);
    }
}

/// Adds a reader to each of some nets.
fn add_all(nets: &[u32], readers: &mut [u32]) {
    for net in nets {
        add(readers, *net, 1);
    }
}

/// The best cut of a net.
fn first_cut(candidates: &Candidates, net: u32) -> Cut {
    match candidates.cuts(net).get(0) {
        Some(cut) => *cut,
        None => Cut::itself(net),
    }
}

/// Whether a net gets a table where something reads it.
pub fn is_table(cut: &Cut, net: u32) -> bool {
    !cut.is_only(net)
}

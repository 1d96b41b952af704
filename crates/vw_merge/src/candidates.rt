//! For each net a few cuts, gate by gate in their order.
use crate::cut::Cut;
use crate::few::Few;
use crate::lists::at;
use crate::readers::{gate_ins, net_count};
use std::alloc::{AllocError, Global};
use std::mem;
use vw_net::{Ordered, TRUTH_TABLE_INPUTS};

/// What one table counts in sums.
const ONE_TABLE: u64 = 4_096;

/// How many of the best cuts of each net are joined for a gate of two inputs, and for one of more.
const JOINED_OF_TWO: usize = 8;

const JOINED_OF_MORE: usize = 4;

/// The cuts of each net, the best one first. A net that may be a leaf has itself as its last one.
#[derive(Drop)]
pub struct Candidates {
    all: Vec<Cut>,
    first: Vec<usize>,
    end: Vec<usize>,
    /// For each net what its best cut asks for, shared by its readers.
    flows: Vec<u64>,
}

/// The cuts of a gate as they are joined, input by input.
#[derive(Drop)]
struct Joining {
    so_far: Few,
    next: Few,
}

impl Candidates {
    /// The cuts of the nets of a netlist, ranked by these numbers of readers.
    pub fn of(alloc: Global, ordered: &Ordered, readers: &[u32]) -> Result<Self, AllocError> {
        let flat = ordered.flat();
        let nets = net_count(flat);
        let mut candidates = Candidates {
            all: Vec::new(alloc),
            first: vec![in alloc; 0; nets as usize]?,
            end: vec![in alloc; 0; nets as usize]?,
            flows: vec![in alloc; 0; nets as usize]?,
        };
        candidates.add_leaves(nets)?;
        let mut joining = Joining {
            so_far: Few::none(alloc),
            next: Few::none(alloc),
        };
        for number in ordered.order() {
            let ins = gate_ins(flat, *number);
            if ins.len() <= TRUTH_TABLE_INPUTS as usize {
                let net = flat.inputs().saturating_add(*number);
                candidates.join(ins, &mut joining)?;
                candidates.keep(net, ins, &joining.so_far, at(readers, net))?;
            }
        }
        Ok(candidates)
    }

    /// Gives each net itself as its only cut.
    fn add_leaves(&mut self, nets: u32) -> Result<(), AllocError> {
        for net in 0..nets {
            let first = self.all.len();
            self.all.push(Cut::itself(net))?;
            self.set(net, first, 0);
        }
        Ok(())
    }

    /// The cuts of a net.
    pub fn cuts(&self, net: u32) -> &[Cut] {
        let (Some(first), Some(end)) = (self.first.get(net as usize), self.end.get(net as usize))
        else {
            return &[];
        };
        if *first <= *end && *end <= self.all.len() {
            return &self.all.as_slice()[*first..*end];
        }
        &[]
    }

    /// Joins the cuts of these nets, one of each.
    fn join(&self, ins: &[u32], joining: &mut Joining) -> Result<(), AllocError> {
        joining.so_far.clear();
        joining.so_far.add(&Cut::none())?;
        let most = if ins.len() <= 2 {
            JOINED_OF_TWO
        } else {
            JOINED_OF_MORE
        };
        for net in ins {
            joining.next.clear();
            self.join_one(*net, most, &joining.so_far, &mut joining.next)?;
            mem::swap(&mut joining.so_far, &mut joining.next);
        }
        Ok(())
    }

    /// Joins each of some cuts with so many cuts of a net, and with the net itself where it may be a leaf.
    fn join_one(
        &self,
        net: u32,
        most: usize,
        so_far: &Few,
        next: &mut Few,
    ) -> Result<(), AllocError> {
        for (place, other) in self.cuts(net).iter().enumerate() {
            if place < most || other.is_only(net) {
                self.join_cut(other, so_far, next)?;
            }
        }
        Ok(())
    }

    /// Joins each of some cuts with another one.
    fn join_cut(&self, other: &Cut, so_far: &Few, next: &mut Few) -> Result<(), AllocError> {
        for cut in so_far.cuts() {
            if let Some(joined) = cut.joined(other) {
                next.add(&joined.ranked(&self.flows))?;
            }
        }
        Ok(())
    }

    /// Keeps the cuts of a gate's net, and with them the nets that the gate reads.
    fn keep(&mut self, net: u32, ins: &[u32], few: &Few, readers: u32) -> Result<(), AllocError> {
        let first = self.all.len();
        for cut in few.cuts() {
            self.all.push(cut.behind_gate())?;
        }
        if ins.len() > 1 || few.cuts().is_empty() {
            let own = reads_of(ins).ranked(&self.flows);
            self.all.push(own.behind_gate())?;
            self.all.push(Cut::itself(net))?;
        }
        let mut flow = ONE_TABLE;
        if let Some(best) = self.all.get(first) {
            flow = flow.saturating_add(best.flow());
        }
        let shared = flow / u64::from(readers.max(1));
        self.set(net, first, shared);
        Ok(())
    }

    /// Says where the cuts of a net are, and what its best one asks for.
    fn set(&mut self, net: u32, first: usize, flow: u64) {
        if let Some(place) = self.first.get_mut(net as usize) {
            *place = first;
        }
        if let Some(place) = self.end.get_mut(net as usize) {
            *place = self.all.len();
        }
        if let Some(old) = self.flows.get_mut(net as usize) {
            *old = flow;
        }
    }
}

/// The cut whose leaves are these nets, at most six.
fn reads_of(ins: &[u32]) -> Cut {
    let mut cut = Cut::none();
    for net in ins {
        if let Some(joined) = cut.joined(&Cut::itself(*net)) {
            cut = joined;
        }
    }
    cut
}

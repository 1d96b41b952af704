//! The gates between the leaves of a cut and its net.
use crate::lists::{at, set};
use crate::readers::{gate_ins, net_count};
use std::alloc::{AllocError, Global};
use vw_net::Ordered;

/// How many nets are looked at most for one cut.
const MOST_LOOKED: u32 = 1_024;

/// A search for gates, which can be used for one cut after the other.
#[derive(Drop)]
pub struct Between {
    /// For each net the number of the last search that looked at it.
    looked: Vec<u32>,
    /// The place of each cell in the order.
    places: Vec<u32>,
    search: u32,
    waiting: Vec<u32>,
    /// The places in the order of the gates that were found, once each.
    found: Vec<u32>,
}

impl Between {
    /// A search in a netlist.
    pub fn of(alloc: Global, ordered: &Ordered) -> Result<Self, AllocError> {
        let flat = ordered.flat();
        let mut places = vec![in alloc; 0; flat.cells().len()]?;
        let mut place: u32 = 0;
        for number in ordered.order() {
            set(&mut places, *number, place);
            place = place.wrapping_add(1);
        }
        Ok(Between {
            looked: vec![in alloc; 0; net_count(flat) as usize]?,
            places,
            search: 0,
            waiting: Vec::new(alloc),
            found: Vec::new(alloc),
        })
    }

    /// The places in the order, in order, of a gate and of those between it and these leaves.
    pub fn places(
        &mut self,
        ordered: &Ordered,
        number: u32,
        leaves: &[u32],
    ) -> Result<&[u32], AllocError> {
        let flat = ordered.flat();
        self.begin(leaves);
        self.look(flat.inputs().saturating_add(number))?;
        for _ in 0..MOST_LOOKED {
            let Some(net) = self.waiting.pop() else {
                break;
            };
            if let Some(cell) = net.checked_sub(flat.inputs()) {
                self.found.push(at(&self.places, cell))?;
                for read in gate_ins(flat, cell) {
                    self.look(*read)?;
                }
            }
        }
        self.found.sort()?;
        Ok(self.found.as_slice())
    }

    /// Begins a search, in which the leaves need not be looked at.
    fn begin(&mut self, leaves: &[u32]) {
        self.search = self.search.saturating_add(1);
        self.waiting.clear();
        self.found.clear();
        for leaf in leaves {
            set(&mut self.looked, *leaf, self.search);
        }
    }

    /// Looks at a net, where this search didn't yet.
    fn look(&mut self, net: u32) -> Result<(), AllocError> {
        if at(&self.looked, net) != self.search {
            set(&mut self.looked, net, self.search);
            self.waiting.push(net)?;
        }
        Ok(())
    }
}

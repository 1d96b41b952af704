ghost use Rattle.vw_order.specs.Steps.Gates.{gates};

use crate::digraph::Digraph;
use crate::read::{gate_inputs, gate_of, is_gate};
use vw_net::Flat;

/// The gates of a netlist, by their cell numbers. Each reads the gates that drive its inputs, and all have to be
/// reached.
#[derive(Drop)]
pub struct Gates<'a> {
    pub flat: &'a Flat,
}

impl Digraph for Gates<'_> {
    ghost graph = { λ all. gates all.flat.now };

    fn count(&self) -> u32 {
        self.flat.cells().len() as u32
    }

    fn starts(&self, number: u32) -> bool {
        is_gate(self.flat, number)
    }

    fn places(&self, number: u32) -> usize {
        gate_inputs(self.flat, number).len()
    }

    fn read(&self, number: u32, place: usize) -> Option<u32> {
        let net = gate_inputs(self.flat, number).get(place)?;
        gate_of(self.flat, *net)
    }
}

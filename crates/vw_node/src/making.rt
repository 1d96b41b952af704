//! Nodes are made.
ghost use Rattle.std.specs.Prelude.{◌≡◌, ◌<◌, length, slice_index, IfOk};
ghost use Rattle.vw_prog.specs.Actions.{ArePrograms};
ghost use Rattle.vw_node.specs.Fits.{bit_by, bit_at_slot, state_of};
ghost use Rattle.vw_node.specs.Made.{IsMade};
ghost use Rattle.vw_node.specs.Starts.{planned_in};
ghost use Rattle.vw_node.specs.States.{slot};

use crate::node::Node;
use crate::starting::start_slots;
use std::alloc::{AllocError, Global};
use vw_net::Rows;
use vw_prog::{Programs, Share};

impl<'a> Node<'a> {
    /// The node of a share, before its first action. It takes the memory for its slots and for all that it will record.
    pub fn make(alloc: Global, programs: &'a Programs, share: Share<'a>) -> Result<Self, AllocError>
        requires { ArePrograms (planned_in share) programs.now }
        ensures { IfOk result (IsMade share.entry) }
    {
        let code = programs.code(share.node);
        let places = vec![in alloc; 0; code.loops.len()]?;
        let slots = start_slots(alloc, &share, code)?;
        let next = vec![in alloc; false; code.latches.len()]?;
        let rows = Rows::blank(alloc, share.clocks as usize, code.records.len())?;
        Ok(Node {
            share,
            code,
            clock: 0,
            made: 0,
            places,
            slots,
            next,
            rows,
        })
    }

    /// A row for each clock. Those of the clocks finished so far have what it has recorded: the outputs, or the chip's latches
    /// before their step. It takes no memory.
    pub fn rows(&self) -> &Rows
        ensures { result.now ≡ self.now.rows }
    {
        &self.rows
    }

    /// The number of each of its latches among all latches of the design. It takes no memory.
    pub fn numbers(&self) -> &[u32]
        ensures { result.now ≡ self.now.code.now.numbers.items }
    {
        self.code.numbers.as_slice()
    }

    /// The bit of the latch at a place among its latches. It takes no memory.
    pub fn latch_bit(&self, place: usize) -> bool
        requires { place < length self.now.code.now.latches.items }
        ensures { result
            ≡ bit_at_slot self.now.slots.items (slice_index self.now.code.now.latches.items place) }
    {
        self.slot_bit(self.code.latches[place] as usize)
    }

    /// The bit of a net, which is 0 where the node doesn't know the net. It looks through its nets. It takes no memory.
    pub fn bit(&self, net: u32) -> bool
        requires { net < length (state_of self.now).slots }
        ensures { result ≡ slot (state_of self.now) net }
    {
        self.known_bit(net)
    }

    /// The bit of a slot.
    fn slot_bit(&self, slot: usize) -> bool
        ensures { result ≡ bit_at_slot self.now.slots.items slot }
    {
        match self.slots.get(slot) {
            Some(bit) => *bit,
            None => false,
        }
    }

    /// The bit of a net, which is 0 where the node doesn't know the net.
    fn known_bit(&self, net: u32) -> bool
        ensures { result ≡ bit_by self.now.code.now.nets.items self.now.slots.items net }
    {
        for (slot, own) in self.code.nets.iter().enumerate() {
            if *own == net {
                return self.slot_bit(slot);
            }
        }
        false
    }
}

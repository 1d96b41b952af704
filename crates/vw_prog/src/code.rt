use crate::gates::Gates;
use crate::shift::ShiftLoop;
use vw_net::Sequence;

/// A gate of more than six inputs.
pub struct WideGate {
    /// Its cell number.
    pub number: u32,
    /// The slots of its inputs.
    pub reads: Sequence<u32>,
    /// The slot of its own net.
    pub target: u32,
}

impl Drop for WideGate {
    fn drop(self) {
        let WideGate {
            number: _,
            reads: _,
            target: _,
        } = self;
    }
}

/// What a node does next.
#[derive(Clone, Copy)]
pub enum Op {
    /// It works out the gates with these numbers among its gates of at most six inputs, from the first to the one before the
    /// last number. The first one's bit goes into this slot, and those of the others into the slots behind it.
    Run { first: usize, end: usize, slot: u32 },
    /// It works out the gate with this number among its wider gates.
    Wide(usize),
    /// It sends the bit of the net at which the shift loop with this number stands, and turns the loop.
    Send(usize),
    /// It takes the bit of a net into this slot.
    Take { link: u32, pin: u32, slot: u32 },
    /// It records, and goes on to the next clock.
    Step,
}

/// What a node does in one clock, in the form in which it runs. The bit of each net that the node knows has a slot of its own.
pub struct Code {
    /// For each action what it does from there on: a gate of at most six inputs goes together with those behind it.
    pub ops: Vec<Op>,
    /// A shift loop for each pin that it sends over.
    pub loops: Vec<ShiftLoop>,
    /// Its gates of at most six inputs, in order.
    pub gates: Gates,
    /// Its wider gates, in order.
    pub wide: Vec<WideGate>,
    /// The net of each slot. The host's inputs have the first slots.
    pub nets: Vec<u32>,
    /// The slots of what it records.
    pub records: Vec<u32>,
    /// The slots of its latches, in the order of the cells.
    pub latches: Vec<u32>,
    /// For each of these the slot of its input.
    pub inputs: Vec<u32>,
    /// For each of these its number among all latches.
    pub numbers: Vec<u32>,
}

impl Drop for Code {
    fn drop(self) {
        let Code {
            ops: _,
            loops: _,
            gates: _,
            wide: _,
            nets: _,
            records: _,
            latches: _,
            inputs: _,
            numbers: _,
        } = self;
    }
}

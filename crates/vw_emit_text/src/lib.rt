//! Writes a planned board as a design in BLIF: each node is a model with a sequencer, its cells, a register for each hop
//! that reaches it and, for each pin that leaves it, what chooses the bit. In the field: netlist generation.
#![tactic(auto)]

mod cells;
mod emission;
mod emitter;
mod fault;
mod items;
mod local_names;
mod models;
mod names;
mod numbered_hop;
mod outlet;
mod ports;
mod rows;
mod senders;
mod words;

pub use emission::emit;
pub use fault::EmitFault;

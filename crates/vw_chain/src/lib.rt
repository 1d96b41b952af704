//! What sets the period of a plan: a chain of gates and wires, each of which waits for the one before it. In the field: a
//! critical path.
#![tactic(auto)]

mod back;
mod chain;
mod critical;
mod due;
mod laws;
mod timed;
mod times;

pub use chain::{Chain, Critical, End, Step};
pub use critical::critical_chain;
pub use laws::chains_set_periods;
pub use timed::Timed;

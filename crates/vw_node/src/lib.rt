//! The nodes of a board, each of which makes its actions one after the other. In the field: a processor with a static
//! schedule, one instruction for each action.
#![tactic(auto)]

mod bits;
mod gates;
mod going;
mod laws;
mod making;
mod node;
mod starting;
mod step;
mod stepping;

pub use laws::values_are_held;
pub use node::Node;
pub use step::Step;

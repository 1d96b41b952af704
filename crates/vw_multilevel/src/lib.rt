//! Where the cells of a netlist might be put on the chips of a board. In the field: multilevel partitioning, as METIS does
//! it (Karypis and Kumar 1998).
#![tactic(auto)]

mod arcs;
mod climb;
mod cluster;
mod cut;
mod grow;
mod halves;
mod level;
mod nets;
mod numbers;
mod refine;
mod rows;
mod run;
mod starts;
mod timing;
mod urgency;
mod ways;
mod wishes;

pub use refine::{again, rounds};
pub use starts::renumbered;
pub use urgency::Urgency;
pub use wishes::hint;

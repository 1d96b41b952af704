//! Faults of the nets of a design, and its clock ports and columns, by numbers. In the field: rule checks of a netlist,
//! such as nets with two drivers or none.
#![tactic(auto)]

mod clock_flags;
mod clocks;
mod columns;
mod edges;
mod items;
mod nets;
mod ports;
mod print;
mod search;
mod two_drivers;
mod undriven;
mod wanted;

pub use columns::Columns;
pub use items::claim_number;
pub use nets::{Nets, Pair};

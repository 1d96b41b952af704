//! Emitted boards as designs: their names, drivers and faults, and what they show. In the field: equivalence of a
//! netlist and its source, by proof in place of search.
#![tactic(auto)]

mod laws;

pub use laws::{emitted_boards_act_as_their_designs, emitted_boards_are_accepted};

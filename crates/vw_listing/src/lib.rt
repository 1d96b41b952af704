//! Netlists as texts that other tools read. In the field: a netlist writer.
#![tactic(auto)]

mod lines;
mod netlist;
mod words;

pub use netlist::netlist_text;

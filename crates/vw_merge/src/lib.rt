//! A netlist with fewer, wider tables that does the same. In the field: mapping to lookup tables of six inputs, by priority
//! cuts (Mishchenko, Cho, Chatterjee, Brayton, ICCAD 2007).
//!
//! Which gates go into which table is chosen without a promise; what a table says of them is worked out and proved.
#![tactic(auto)]

mod area;
mod between;
mod candidates;
mod choice;
mod cut;
mod few;
mod gain;
mod gate_word;
mod lists;
mod merge;
mod merging;
mod readers;
mod table;
mod words;

pub use gain::merged_for;
pub use merge::merged;

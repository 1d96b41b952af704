//! Reads a design text in BLIF: models with ports, tables, latches and placed models. In the field: the front end for
//! BLIF, the Berkeley Logic Interchange Format (University of California, Berkeley, 1992).
#![tactic(auto)]

mod bind;
mod block;
mod copies;
mod design;
mod fault;
mod kept_words;
mod kind;
mod latch;
mod laws;
mod open_table;
mod ports;
mod reader;
mod row;
mod table;
mod take;

pub use design::read;
pub use fault::TextFault;
pub use laws::{designs_spell_once, lines_are_cut, printed_designs_read, the_first_fault_counts};

//! A flat netlist: gates and latches with numbers in place of names, and what it means. In the field: a netlist of
//! single-output tables and flip-flops, as a technology mapper leaves it.
#![tactic(auto)]

mod cell;
mod checked;
mod cover;
mod flat;
mod laws;
mod limits;
mod masks;
mod ordered;
mod rows;
mod sequence;
mod truth_table;

pub use cell::{Cell, Init};
pub use cover::{Cover, Mark, Row};
pub use flat::Flat;
pub use laws::{
    found_gates_settle, found_levels_settle, gates_settle, histories_join, levels_settle,
    plain_values_are_found, truth_tables_agree, truth_tables_repeat,
};
pub use limits::{MOST_CELLS, MOST_DESIGN_OUTPUTS, MOST_INPUTS, MOST_OUTPUTS, MOST_TABLE_INPUTS};
pub use ordered::Ordered;
pub use rows::Rows;
pub use sequence::{Bits, Sequence};
pub use truth_table::{TRUTH_TABLE_INPUTS, bit_of};

//! Which chip each cell is put on. In the field: partitioning by moves with gains (Fiduccia and Mattheyses 1982), without
//! their passes.
#![tactic(auto)]

mod cell_nets;
mod deal;
mod dealt;
mod descent;
mod fault;
mod load;
mod net_cells;
mod tally;

pub use dealt::partition_from;
pub use fault::PartFault;

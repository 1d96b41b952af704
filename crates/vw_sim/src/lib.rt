//! One clock of a flat netlist, worked out gate by gate. In the field: levelized, cycle-based simulation.
#![tactic(auto)]

mod clock;
mod kept;
mod simulator;
mod tables;

pub use clock::step;
pub use simulator::Simulator;

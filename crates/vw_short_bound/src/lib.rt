//! Periods that no plan with shortest wires can undercut: pins inside the design, where each net waits for all that it rests
//! on.
#![tactic(auto)]

mod classes;
mod inlets;
mod lasts;
mod periods;
mod press;
mod pressing;
mod rows;
mod soonest;
mod tables;
mod waits;

pub use periods::short_bound;

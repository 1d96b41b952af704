//! How many microcycles a bit takes at least from each node of a board to each other. In the field: shortest paths.
#![tactic(auto)]

mod delays;
mod laws;
mod rows;

pub use delays::Delays;
pub use laws::{least_delays_are_least, least_delays_are_small, least_delays_are_ways};

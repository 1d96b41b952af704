//! Shortest walks between the nodes of a board. In the field: shortest-path routing.
#![tactic(auto)]

mod laws;
mod least;
mod route;
mod spread;

pub use laws::routes_are_one;
pub use least::is_least_walk;
pub use route::walk;
pub use spread::spread_walks;

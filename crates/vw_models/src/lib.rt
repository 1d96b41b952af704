//! The models of a design by their numbers: which place which, which are reached, and an order of them or a circle. And
//! faults of the bindings of placed models. In the field: the checks of a module hierarchy.
#![tactic(auto)]

mod both;
mod circle;
mod formal_at;
mod formals;
mod laws;
mod model_graph;
mod no_formal;
mod numbered_placing;
mod numbers;
mod order;
mod output_of;
mod placed;
mod reach;
mod reached;
mod targets;
mod unbound;
mod unknown;

pub use both::both_ways;
pub use formal_at::FormalAt;
pub use laws::ordered_is_no_circle;
pub use no_formal::unknown_formal;
pub use order::{ModelOrder, order_of};
pub use output_of::OutputOf;
pub use placed::Targets;
pub use reached::models_reached;
pub use targets::targets_of;
pub use unbound::unbound_input;
pub use unknown::unknown_model;

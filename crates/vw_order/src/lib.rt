//! Numbers that read each other: a search in depth for an order of them, or a circle. And by it an order in which the
//! gates of a netlist can be worked out, or gates that read each other in a loop. In the field: a topological order, by
//! depth-first search.
#![tactic(auto)]

mod circle;
mod depth;
mod depth_first;
mod digraph;
mod gate_order;
mod gates;
mod laws;
mod progress;
mod read;
mod search_laws;

pub use depth_first::{Found, search};
pub use digraph::Digraph;
pub use gate_order::{OrderFault, OrderRefused, order};
pub use laws::{loop_free_is_ordered, orders_are_loop_free};
pub use search_laws::{order_excludes_circle, order_or_circle};

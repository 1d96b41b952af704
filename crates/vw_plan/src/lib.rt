//! Boards of chips joined by links, plans that send the nets of a design over them, and what makes a plan sound. In the
//! field: static time multiplexing of pins, called virtual wires (Babb, Tessier and Agarwal 1993).
#![tactic(auto)]

mod board;
mod checked;
mod laws;
mod limits;
mod link;
mod need;
mod node;
mod plan;
mod wire;

pub use board::Board;
pub use checked::Checked;
pub use laws::{
    depths_are_deepest, depths_are_small, depths_follow_drivers, distances_are_least, hops_go_on,
    leads_follow_drivers, links_differ, needed_nets_are_nets, needed_pairs_are_needed,
    pins_have_one_user, read_nets_are_there,
};
pub use limits::{MOST_CHIPS, MOST_SETTLE};
pub use link::Link;
pub use need::{Need, Route};
pub use node::node_of;
pub use plan::Plan;
pub use wire::{Hop, Wire};

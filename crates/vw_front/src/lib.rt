//! From the text of a design to its netlist with an order of the gates, with the names of its nets or without them, or
//! the reason why there is none. In the field: the front end of a compiler.
#![tactic(auto)]

mod fault;
mod laws;
mod named;
mod names;
mod netlist;
mod signals;

pub use fault::NetlistFault;
pub use laws::{
    circles_have_listed_loops, running_designs_have_named_netlists, running_designs_have_netlists,
};
pub use named::NamedNetlist;
pub use netlist::{named_netlist_of_text, netlist_of_text};

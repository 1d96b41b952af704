//! The flat netlist of an elaborated design in which probes watch nets, and the nets of its cells as they are printed.
//! In the field: flattening.
#![tactic(auto)]

mod cell;
mod fault;
mod laws;
mod netlist;
mod number;
mod printing;
mod probe;

pub use fault::{FlatFault, no_net_line};
pub use laws::{
    accepted_designs_have_netlists, one_probe_is_first_without_net, probes_find_one_net,
};
pub use netlist::flatten;
pub use printing::path_of;

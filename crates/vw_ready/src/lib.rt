//! When nets are at nodes: over which link a hop goes and when it arrives, and from which microcycle on a node can use a
//! net. In the field: arrival and ready times.
#![tactic(auto)]

mod home;
mod lead_table;
mod leads;
mod links;
mod pairs;
mod wired;

pub use home::{arrivals_of, home_leads, wire_table};
pub use lead_table::LeadTable;
pub use links::LinkTable;
pub use pairs::PairTable;
pub use wired::Wired;

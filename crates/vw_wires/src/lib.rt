//! Which nets of a placement have to be sent where, and how many wires come one after the other. In the field: cut nets,
//! and nets with several terminals.
#![tactic(auto)]

mod crossing;
mod table;
mod wires;

pub use wires::{depths, needed};

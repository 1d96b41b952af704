//! Elaborated designs: designs without a fault, with their instances, cells, drivers and columns by numbers. In the
//! field: elaboration.
#![tactic(auto)]

mod driver;
mod elaborated;
mod elaboration;
mod fault;
mod laws;
mod models;
mod nets;
mod parts;

pub use driver::Driver;
pub use elaborated::{Elaborated, Instance};
pub use elaboration::elaborate;
pub use fault::{DesignFault, line_of_names};
pub use laws::{instances_are_one, sites_are_one};
pub use vw_instances::{CellSite as Site, Quantity};

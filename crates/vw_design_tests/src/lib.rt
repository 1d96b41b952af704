//! Tests of the crates that read and elaborate designs. They call what these crates offer to others. They stand in a crate
//! of their own, since a crate with tests is proved twice.
#![tactic(auto)]

#[cfg(test)]
mod bindings;
#[cfg(test)]
mod blif;
#[cfg(test)]
mod claims;
#[cfg(test)]
mod design;
#[cfg(test)]
mod elaborated;
#[cfg(test)]
mod models;
#[cfg(test)]
mod names;
#[cfg(test)]
mod printed;
#[cfg(test)]
mod same;
#[cfg(test)]
mod sizes;

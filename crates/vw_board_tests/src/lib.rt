//! Tests of the commands over boards that run nothing, `check`, `plan`, `report` and `emit`: which plans are sound, and why others
//! aren't.
#![tactic(auto)]

#[cfg(test)]
mod checks;
#[cfg(test)]
mod chips;
#[cfg(test)]
mod damaged;
#[cfg(test)]
mod emits;
#[cfg(test)]
mod large;
#[cfg(test)]
mod plans;
#[cfg(test)]
mod reports;

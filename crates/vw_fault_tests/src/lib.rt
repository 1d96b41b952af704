//! Tests of grading: open faults of small netlists by hand and by a grader of one fault at a time, groups of each length, tables
//! of each kind, and a netlist near the limits. They stand in a crate of their own, since a crate with tests is proved twice.
#![tactic(auto)]

#[cfg(test)]
mod designs;
#[cfg(test)]
mod grading;
#[cfg(test)]
mod netlists;
#[cfg(test)]
mod plainly;

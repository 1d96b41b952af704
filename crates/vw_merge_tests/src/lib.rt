//! Tests of merged netlists: generated designs of many sizes, each simulated with and without merging. They stand in a crate of
//! their own, since a crate with tests is proved twice.
#![tactic(auto)]

#[cfg(test)]
mod compared;
#[cfg(test)]
mod generated;
#[cfg(test)]
mod merged;

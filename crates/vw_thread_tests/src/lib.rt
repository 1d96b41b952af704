//! Tests of runs with several workers: the trace of the design, whatever their number, and the words that each link has
//! carried; and of commands over files of the machine. They stand in a crate of their own, so that their proofs don't wait
//! for those of other commands' tests.
#![tactic(auto)]

#[cfg(test)]
mod tests;

//! Tests of worlds: positions and links after lists of events, and what worlds come to.
#![tactic(auto)]

#[cfg(test)]
mod worlds;

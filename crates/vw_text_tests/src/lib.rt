//! Tests of lines and words, of the stimulus, of generated texts, netlists, waves and states, and of what lies outside the program. They call what these crates
//! offer to others. They stand in a crate of their own, since a crate with tests is proved twice.
#![tactic(auto)]

#[cfg(test)]
mod dumps;
#[cfg(test)]
mod generated;
#[cfg(test)]
mod listing;
#[cfg(test)]
mod outside;
#[cfg(test)]
mod rows;
#[cfg(test)]
mod same;
#[cfg(test)]
mod states;
#[cfg(test)]
mod text;
#[cfg(test)]
mod waves;

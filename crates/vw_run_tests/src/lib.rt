//! Tests of runs on boards by one worker, `run` and `demo`, and of probes.
#![tactic(auto)]

#[cfg(test)]
mod demos;
#[cfg(test)]
mod equal;
#[cfg(test)]
mod partitions;
#[cfg(test)]
mod probes;
#[cfg(test)]
mod runs;

//! Tests of emitted boards: their text, their limits, and that they behave as the design.
#![tactic(auto)]

#[cfg(test)]
mod boards;
#[cfg(test)]
mod demos;
#[cfg(test)]
mod emitted;
#[cfg(test)]
mod traces;

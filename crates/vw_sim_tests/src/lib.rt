//! Tests of the commands `sim`, `wave`, `grade` and `nets`, of `--help` and `--version`, and of the example of a caller: words and texts
//! in memory, and the status, the text and the message that they come to. Designs of all kinds are run and refused here. They
//! stand in a crate of their own, since a crate with tests is proved twice.
#![tactic(auto)]

#[cfg(test)]
mod claims;
#[cfg(test)]
mod designs;
#[cfg(test)]
mod example;
#[cfg(test)]
mod grades;
#[cfg(test)]
mod help;
#[cfg(test)]
mod hierarchy;
#[cfg(test)]
mod hostile;
#[cfg(test)]
mod limits;
#[cfg(test)]
mod loops;
#[cfg(test)]
mod nets;
#[cfg(test)]
mod refusals;
#[cfg(test)]
mod sims;
#[cfg(test)]
mod streamed;
#[cfg(test)]
mod waves;
#[cfg(test)]
mod words;

//! Tests of links and crews: what the ends of a link answer, and what a fabric has carried.
#![tactic(auto)]

mod ends;
#[cfg(test)]
mod links;
mod scripts;

//! Tests of netlists, boards and plans, and of the calls that make a plan. They call what these crates offer to others. They
//! stand in a crate of their own, since a crate with tests is proved twice.
#![tactic(auto)]

#[cfg(test)]
mod board_text;
#[cfg(test)]
mod boards;
#[cfg(test)]
mod bound;
#[cfg(test)]
mod check;
#[cfg(test)]
mod hint;
#[cfg(test)]
mod net;
#[cfg(test)]
mod netlists;
#[cfg(test)]
mod order;
#[cfg(test)]
mod part;
#[cfg(test)]
mod place;
#[cfg(test)]
mod plan;
#[cfg(test)]
mod plan_text;
#[cfg(test)]
mod plans;
#[cfg(test)]
mod programs;
#[cfg(test)]
mod route;
#[cfg(test)]
mod same;
#[cfg(test)]
mod schedule;
#[cfg(test)]
mod search;
#[cfg(test)]
mod slots;
#[cfg(test)]
mod wires;

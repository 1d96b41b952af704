//! The board itself, in a pure core: the nodes of a job and the words on its links, over every order of events. In the
//! field: a process network with bounded queues (Kahn 1974), whose results don't depend on who acts first.
#![tactic(auto)]

mod board;
mod lane;
mod lanes;
mod laws;
mod making;
mod world;

pub use laws::{events_keep_worlds, worlds_are_never_stuck};
pub use world::World;

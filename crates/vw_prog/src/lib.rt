//! What each node of a board does in one clock of the design, which words go over which link, and the traits of the ends of
//! links. In the field: a static schedule.
#![tactic(auto)]

mod action;
mod answer;
mod build;
mod code;
mod codes;
mod coding;
mod ends;
mod entry;
mod gates;
mod job;
mod laws;
mod naming;
mod owners;
mod programs;
mod shift;
mod unfolding;
mod word;

pub use action::Action;
pub use answer::Answer;
pub use code::{Code, Op, WideGate};
pub use ends::{Ends, Fabric, PutEnd, TakeEnd};
pub use gates::{Gates, TableGate};
pub use job::{Job, Share};
pub use laws::{leads_end_in_time, loops_turn, passes_have_two_ends, reads_are_due};
pub use programs::Programs;
pub use shift::{LoopNet, ShiftLoop};
pub use word::Word;

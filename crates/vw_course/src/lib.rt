//! Courses of commands: what a command reads, why it refuses, what it does, and how a call of it ends. Which files there
//! are, and which reasons to refuse, is up to the program. In the field: a specification of observable behaviour.
#![tactic(auto)]

mod answers;
mod outside;
mod reporting;
mod unfinished;
mod vocabulary;

pub use answers::answer_of;
pub use outside::Outside;
pub use reporting::report;
pub use unfinished::Unfinished;
pub use vocabulary::{CommandFile, RefusalReason};

//! What the words of a command spell, and which course each command takes: the files that it reads, the reasons for
//! which it refuses, and what it writes. In the field: a grammar of command lines, and a specification of each command.
#![tactic(auto)]

mod command;
mod forms;
mod size;
mod vocabulary;
mod words;

pub use command::{
    Command, GradeSettings, Interval, PlainCommand, ReplayWords, RunWords, RuntimeCommand, Several,
};
pub use size::Size;
pub use vocabulary::{File, Reason, Unfinished};
pub use words::{command_of, probes_of};

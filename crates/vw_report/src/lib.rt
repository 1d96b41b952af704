//! A plan in numbers and names: how full its chips and links are, what its period waits for, and which periods no other plan
//! for the same chips can undercut.
#![tactic(auto)]

mod busy;
mod chain_lines;
mod counts;
mod findings;
mod parts;
mod report;
mod reported;
mod short;
mod tally;
mod waits;
mod words;

pub use findings::Findings;
pub use report::report_text;

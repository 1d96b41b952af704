//! Stuck-at faults that rows reveal. In the field: parallel fault simulation, with one fault in each bit of a word.
#![tactic(auto)]

mod clock;
mod gate;
mod grading;
mod group;
mod laws;
mod merged;
mod open;
mod outputs;
mod passes;
mod reached;
mod share;
mod stuck;
mod table;
mod text;
mod words;
mod workers;

pub use laws::{
    first_rows_reveal, nothing_is_stuck, open_faults_change_no_output, shares_join,
    unreached_nets_are_open, unread_nets_are_open,
};
pub use open::Open;
pub use passes::{GradedShare, grade, grade_share};
pub use share::Share;
pub use text::{grading_text, share_text};

//! Calls of commands over texts in memory, for the crates of tests: words, texts and a fault, and the status, the output
//! and the message that they come to. What differs from what is wanted is told as a failure of the test.
#![tactic(auto)]

mod call;
mod demos;
mod ends;
mod large;
mod streams;
mod threads;

pub use call::{
    Call, End, Fault, MOST, Ran, SEVERAL, SIM, call_over, carried_out, file, files_of, names_of,
    out_of, shelf_of, sink,
};
pub use demos::demonstrated;
pub use ends::{
    are_found, call_ends, designs_are_refused, designs_run, designs_run_alike, faults_end,
    has_ended, is_status, run_ends, stimuli_are_refused, words_end, words_end_so,
};
pub use large::{DONE, Large, REFUSED, large_designs_end};
pub use streams::{batches_are_joined, is_stopped, line_of_read};
pub use threads::{all_end_on, carried_out_on, ends_on, words_carried, written_on};

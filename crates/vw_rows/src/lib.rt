//! The rows of a stimulus text, and the text of a trace. In the field: test vectors, and the responses to them.
#![tactic(auto)]

mod batch;
mod counting;
mod fault;
mod laws;
mod limits;
mod line_so_far;
mod pieces;
mod rereading;
mod said;
mod scan;
mod stimulus;
mod trace;

pub use fault::StimFault;
pub use laws::plain_rows_read;
pub use limits::{MOST_CLOCKS, MOST_STIMULUS_BYTES};
pub use rereading::Rereading;
pub use stimulus::Stimulus;
pub use trace::{trace_end, trace_head, trace_rows};

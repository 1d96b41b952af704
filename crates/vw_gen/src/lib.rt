//! Designs, boards and stimuli that are generated from a number of cells, to try out and to measure what reads them; and
//! the line that sums up a trace. In the field: synthetic benchmarks.
#![tactic(auto)]

mod boards;
mod designs;
mod draws;
mod stimuli;
mod summaries;
mod words;

pub use boards::board;
pub use designs::design;
pub use stimuli::stimulus;
pub use summaries::summary;

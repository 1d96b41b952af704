//! Boards that run a planned design batch by batch, in any number of workers, and what is written down meanwhile. In the
//! field: emulation in batches of test vectors.
#![tactic(auto)]

mod board_run;
mod floor;
mod going;
mod laws;
mod running_board;

pub use board_run::{run, run_alone, write_trace_on};
pub use floor::Floor;
pub use going::go_on;
pub use laws::{fewer_rows_carry_fewer_words, jobs_carry_their_rows};
pub use running_board::RunningBoard;

//! The files of commands, each read and judged at its own stage, up to a design on its board with its plan. In the field:
//! the input stage of a compiler's driver.
#![tactic(auto)]

mod board_files;
mod checked;
mod files;
mod probes;
mod ready;

pub use board_files::{BoardFiles, PlanBy};
pub use files::{check_rows, read_design, read_given_state, read_named_design, read_state};
pub use probes::{Probes, Watched};
pub use ready::{ready_board, ready_on_board};

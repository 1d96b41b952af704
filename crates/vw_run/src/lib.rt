//! Plans of a design on a board; what runs a board by such a plan is handed on. In the field: the compiler of a logic
//! emulator, and the emulator.
#![tactic(auto)]

mod better;
mod compiler;
mod fault;
mod routes;
mod way;

pub use compiler::{compile, compile_for};
pub use fault::{CompileFault, CompileRefused};
pub use routes::{Routing, routes_of};
pub use vw_batches::{Floor, fewer_rows_carry_fewer_words, jobs_carry_their_rows, run, run_alone};
pub use vw_trace::RunFault;

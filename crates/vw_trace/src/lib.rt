//! Traces of netlists, and other texts over their clocks, whatever works these out: a simulator that lies here, or an
//! engine above. In the field: simulation traces.
#![tactic(auto)]

mod batch;
mod engine;
mod fault;
mod merged;
mod record;
mod recorder;
mod simulation;
mod trace;
mod trace_recorder;
mod trigger;

pub use engine::{Batch, Engine};
pub use fault::RunFault;
pub use merged::merged_before;
pub use record::{BATCH, record_run};
pub use recorder::{Recorder, write_batch};
pub use simulation::Simulation;
pub use trace::{shown_count, write_head, write_trace, write_trace_by};
pub use trace_recorder::TraceRecorder;
pub use trigger::write_clocks;

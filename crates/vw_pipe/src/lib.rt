//! Schedules in which each hop takes the first free slot of its link once its net is usable. In the field: list scheduling,
//! by the length of the critical path that remains.
#![tactic(auto)]

mod along;
mod draft;
mod drafting;
mod given;
mod planning;
mod refused;
mod remaining;
mod task;
mod turns;

pub use planning::schedule;
pub use refused::ScheduleRefused;
pub use turns::Priority;

//! What nodes that are done have told: the answer of a job. In the field: the reduction at the end of a parallel job.
#![tactic(auto)]

mod answering;
mod room;
mod rows;

pub use answering::answer_of;
pub use room::Room;

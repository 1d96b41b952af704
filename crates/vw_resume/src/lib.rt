//! States of runs, and runs that go on from them: on another board, by another plan, with another number of workers. The
//! traces of such runs, joined line by line, are the trace of the whole. In the field: checkpoint and restart.
#![tactic(auto)]

mod fault;
mod keeping;
mod laws;
mod limits;
mod reading;
mod recorder;
mod replaying;
mod resuming;
mod saving;
mod state;

pub use fault::StateFault;
pub use laws::{
    replays_join, saved_texts_spell_states, spelled_short, state_faults_are_single,
    states_spell_once, traces_join, waves_of_replays_replay,
};
pub use limits::LONGEST_STATE;
pub use replaying::{replay_trace, replay_wave};
pub use resuming::run_watched_from;
pub use saving::{save, save_every};
pub use state::State;
pub use vw_trace::RunFault as ResumeFault;

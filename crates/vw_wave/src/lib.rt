//! Waves of runs. In the field: the recording of waveforms.
#![tactic(auto)]

mod laws;
mod recorder;
mod row;
mod write;

pub use laws::waves_of_runs_replay;
pub use recorder::WaveRecorder;
pub use write::{write_wave, write_wave_by};

//! Waves: what signals do, clock by clock, as a value change dump of IEEE 1364 for a viewer of waveforms. Only changes
//! are written, and only the values 0 and 1. In the field: waveform dumping.
#![tactic(auto)]

mod changes;
mod clock;
mod heads;
mod identifier;
mod laws;
mod wave;

pub use heads::head;
pub use laws::{identifiers_differ, waves_join, waves_replay};
pub use wave::Wave;

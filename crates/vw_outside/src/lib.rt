//! What lies outside the program: texts that are read by their names, and places that bytes are written to. In the
//! field: ports and adapters (Cockburn 2005).
#![tactic(auto)]

mod burst_gate;
mod files;
mod held;
mod laws;
mod memory_shelf;
mod memory_sink;
mod name;
mod shelf;
mod sink;
mod streams;
mod sure_shelf;
mod sure_sink;
mod text;
mod unwritten;

pub use burst_gate::{BurstGate, OpenGate};
pub use files::FileShelf;
pub use held::Held;
pub use laws::{no_read_fault_over_a_sure_shelf, no_write_fault_over_a_sure_sink};
pub use memory_shelf::MemShelf;
pub use memory_sink::MemSink;
pub use name::Name;
pub use shelf::Shelf;
pub use sink::{Failed, Sink, put_all, put_text};
pub use streams::{ErrSink, OutSink, StreamSink};
pub use sure_shelf::SureShelf;
pub use sure_sink::SureSink;
pub use text::{TextRefused, read_text};
pub use unwritten::Unwritten;

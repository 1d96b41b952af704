//! Reads board texts, and finds how far the nodes of a board are from each other. The distances are found by
//! breadth-first search.
#![tactic(auto)]

mod apart;
mod board_text;
mod distances;
mod fault;
mod head;
mod laws;
mod limits;
mod link_lines;
mod pins;
mod walks;

pub use board_text::read;
pub use distances::Distances;
pub use fault::BoardFault;
pub use laws::{board_faults_are_single, boards_spell_once, first_steps_are_one};
pub use link_lines::has_link;

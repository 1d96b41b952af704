//! Lines, words and numbers of the texts that designs, boards, plans and stimuli are written in. In the field: lexical
//! analysis.
#![tactic(auto)]

mod bare;
mod laws;
mod limits;
mod line;
mod message;
mod numbers;
mod physical;
mod print;
mod reader;
mod words;

pub use bare::{is_blank, without_comment};
pub use laws::{lines_join, plain_lines_read};
pub use limits::MOST_DESIGN_BYTES;
pub use line::Line;
pub use message::numbered_line;
pub use numbers::{number, number_in};
pub use physical::first_line;
pub use print::{push_bits, push_number};
pub use reader::{LineReader, lines};

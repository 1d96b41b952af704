//! Samples for the crates of tests: texts of designs, boards, plans and stimuli, planned designs, and jobs; and
//! what is found, written plainly as a text.
#![tactic(auto)]

mod boards;
mod emitted;
mod jobs;
mod pieces;
mod shown;
mod texts;

pub use boards::{PLANNED_AND, PLANNED_FAR_FLIP, PLANNED_FLIP, PLANNED_TOGGLE, Texts, planned};
pub use emitted::{EMITTED_AND, EMITTED_TOGGLE, LONG_PLAN};
pub use jobs::job_of;
pub use pieces::{Piece, is_spelled, push_form, repeated, spelled};
pub use shown::{
    add_behind, add_list, add_number, add_numbers, add_option, add_options, add_words, name,
};
pub use texts::{
    AND, AND_PLAN, CHAIN, CUT_PLAN, FAR_CHAIN, FAR_PLAN, FIVE_GATES, FLIP, FLIP_PLAN, FLIP_TEXTS,
    FLIP_TRACE, FOUR_CELLS, FOUR_GATES, ONE_CHIP, SLOW_TRIANGLE, SMALL_CHAIN, TOGGLE, TOGGLE_PLAN,
    TOGGLE_ROWS, TOGGLE_RUN, TOGGLE_TEXTS, TOGGLE_TRACE, TRIANGLE, TWO_INVERTERS,
};

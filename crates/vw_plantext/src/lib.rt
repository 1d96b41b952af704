//! Writes plans as texts, and reads them: each plan has one spelling. In the field: a canonical form.
#![tactic(auto)]

mod body;
mod chips_text;
mod fault;
mod laws;
mod limits;
mod line;
mod plan_text;
mod start;
mod writer;

pub use chips_text::read_chips;
pub use fault::PlanTextFault;
pub use laws::{
    chips_spell_once, one_line_is_first, plan_text_faults_are_single, plans_spell_once,
    spellings_differ,
};
pub use plan_text::read;
pub use writer::print;

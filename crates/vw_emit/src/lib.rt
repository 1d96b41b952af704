//! Writes a planned board as a design in BLIF, which does what the planned design does: the reader spells the board's
//! models back from their print. In the field: the back end that writes a netlist, and the round trip of a printer and a
//! parser.
#![tactic(auto)]

mod emission;
mod laws;

pub use emission::emit;
pub use laws::{
    emitted_texts_act_as_their_designs, emitted_texts_are_printed,
    emitted_texts_show_their_designs, emitted_texts_spell_boards, emitted_texts_spell_designs,
};
pub use vw_emit_text::EmitFault;

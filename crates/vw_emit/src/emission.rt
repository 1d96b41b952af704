//! A planned board as a design.
ghost use Rattle.std.specs.Prelude.{◌≡◌, IfOk, IfErr};
ghost use Rattle.vw_plan.specs.PlannedBoard.{planned_board};
ghost use Rattle.vw_emit_text.specs.Emitted.{FitsDesigns, IsEmitFault, emitted_text};
ghost use Rattle.vw_emit.specs.EmittedBoard.{IsEmittedBoard};

use crate::laws::emitted_texts_spell_designs;
use std::alloc::Global;
use vw_emit_text::EmitFault;
use vw_plan::Checked;

/// The planned board as the text of a design in BLIF: a model of the board, which places a model of each node, the host
/// and the chips. It is a design without a fault or a loop. With each row held for as many microclocks as a clock has,
/// one more than the period, it shows at the last of them the outputs and then the latch values of the planned design
/// at that clock. It is within the limits of designs and their texts; a fault is the first of these that it is above.
pub fn emit(alloc: Global, checked: &Checked) -> Result<Vec<u8>, EmitFault>
    ensures text { IfOk result (λ text. text.items ≡ emitted_text
        (planned_board checked.now.ordered checked.now.board checked.now.plan)) }
    ensures fits { IfOk result (λ text. FitsDesigns
        (planned_board checked.now.ordered checked.now.board checked.now.plan)) }
    ensures board { IfOk result (λ text. IsEmittedBoard
        (planned_board checked.now.ordered checked.now.board checked.now.plan) text.items) }
    ensures fault { IfErr result (IsEmitFault
        (planned_board checked.now.ordered checked.now.board checked.now.plan)) }
{
    emitted_texts_spell_designs();
    vw_emit_text::emit(alloc, checked)
}

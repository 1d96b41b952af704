//! Laws of the definitions, as contracts of functions that do nothing.
ghost use Rattle.std.specs.Prelude.{◌≡◌, Bool, List, Ok, length, map, ℕ, []};
ghost use Rattle.vw_design.specs.Accepted.{IsAccepted};
ghost use Rattle.vw_design.specs.Clocks.{columns};
ghost use Rattle.vw_design.specs.Flattened.{IsFlatOf};
ghost use Rattle.vw_design.specs.Limits.{IsSmall};
ghost use Rattle.vw_design.specs.Loops.{IsLoopFree};
ghost use Rattle.vw_design.specs.declared.design.Design.{Design};
ghost use Rattle.vw_blif.specs.Printed.{printed_by};
ghost use Rattle.vw_blif.specs.Read.{design_of};
ghost use Rattle.vw_blif.specs.Spelled.{spelled_model};
ghost use Rattle.vw_front.specs.Designs.{IsNoDesign, Runs, SpellsDesign};
ghost use Rattle.vw_plan.specs.PlannedBoard.{PlannedBoard};
ghost use Rattle.vw_plan.specs.Sound.{IsSound};
ghost use Rattle.vw_emit_names.specs.Boards.{IsBoardOf, board_models};
ghost use Rattle.vw_emit_names.specs.Shows.{ActsAs};
ghost use Rattle.vw_emit_text.specs.Emitted.{FitsDesigns, emitted_text};
ghost use Rattle.vw_emit_text.specs.Numbered.{emitting, spelled_board, without_lines};
ghost use Rattle.vw_emit.specs.EmittedBoard.{IsBoardOfDesign, IsEmittedBoard};

use vw_blif::printed_designs_read;
use vw_design::histories_agree;
use vw_emit_names::{emitted_boards_act_as_their_designs, emitted_boards_are_accepted};

/// The text of the emitted board of a sound plan is the board's models in print, each item on its line. These are the
/// models of the board, whatever their lines; so a design that spells them is the emitted board.
pub fn emitted_texts_are_printed()
    ensures printed { (planned : PlannedBoard) → IsSound planned
        → emitted_text planned ≡ printed_by emitting (spelled_board planned) }
    ensures models { (planned : PlannedBoard) → map without_lines (spelled_board planned) ≡ board_models planned }
    ensures boards { (planned : PlannedBoard) (board : Design)
        → map spelled_model board.models ≡ spelled_board planned → IsBoardOf planned board }
{}

/// So the reader finds no fault in the text, if it is within the limits of designs, and there is a design that it
/// spells. This is the emitted board, and no quantity of it is above its limit: the cells and outputs that the text was
/// measured by are no fewer than its own.
pub fn emitted_texts_spell_boards()
    ensures spells { (planned : PlannedBoard) → IsSound planned → FitsDesigns planned
        → design_of (emitted_text planned) ≡ Ok (spelled_board planned) }
    ensures some { (planned : PlannedBoard) → IsSound planned → FitsDesigns planned
        → (board : Design) × (design_of (emitted_text planned) ≡ Ok (map spelled_model board.models)) }
    ensures boards { (planned : PlannedBoard) (board : Design) → IsSound planned → FitsDesigns planned
        → design_of (emitted_text planned) ≡ Ok (map spelled_model board.models) → IsBoardOf planned board }
    ensures small { (planned : PlannedBoard) (board : Design) → IsSound planned → FitsDesigns planned
        → design_of (emitted_text planned) ≡ Ok (map spelled_model board.models) → IsSmall board }
{
    printed_designs_read();
}

/// And this design has no fault and no loop, and takes rows of the same width as the design that was planned. It shows
/// at the last microclock of each clock the outputs and then the latch values of that design, for all rows, each held
/// for as many microclocks as a clock has.
pub fn emitted_texts_act_as_their_designs()
    ensures accepted { (planned : PlannedBoard) (board : Design) → IsSound planned → FitsDesigns planned
        → design_of (emitted_text planned) ≡ Ok (map spelled_model board.models) → IsAccepted board }
    ensures loop_free { (planned : PlannedBoard) (board : Design) → IsSound planned → FitsDesigns planned
        → design_of (emitted_text planned) ≡ Ok (map spelled_model board.models) → IsLoopFree board }
    ensures columns { (planned : PlannedBoard) (board : Design) → IsSound planned → FitsDesigns planned
        → design_of (emitted_text planned) ≡ Ok (map spelled_model board.models)
        → length (columns board) ≡ planned.ordered.flat.inputs }
    ensures acts { (planned : PlannedBoard) (board : Design) → IsSound planned → FitsDesigns planned
        → design_of (emitted_text planned) ≡ Ok (map spelled_model board.models)
        → (unknown : Bool) (rows : List (List Bool)) → ActsAs planned board unknown rows }
{
    emitted_texts_spell_boards();
    emitted_boards_are_accepted();
    emitted_boards_act_as_their_designs();
}

/// The text of the emitted board of a sound plan, within the limits of designs, spells a design that runs and does what
/// was planned. So it isn't refused, and each design that it spells is that one.
pub fn emitted_texts_spell_designs()
    ensures board { (planned : PlannedBoard) → IsSound planned → FitsDesigns planned
        → IsEmittedBoard planned (emitted_text planned) }
    ensures runs { (planned : PlannedBoard) → IsSound planned → FitsDesigns planned
        → Runs [] (emitted_text planned) }
    ensures unrefused { (planned : PlannedBoard) → IsSound planned → FitsDesigns planned
        → IsNoDesign [] (emitted_text planned) → ⊥ }
    ensures only { (planned : PlannedBoard) (text : List ℕ) (is : IsEmittedBoard planned text)
        (other : Design) → SpellsDesign text other → other ≡ is.board }
{
    emitted_texts_spell_boards();
    emitted_texts_act_as_their_designs();
}

/// So it is between designs: where the netlist that was planned is that of a design, the emitted text spells a design
/// that shows it.
pub fn emitted_texts_show_their_designs()
    ensures { (planned : PlannedBoard) (design : Design) → IsSound planned → FitsDesigns planned
        → IsFlatOf design [] planned.ordered.flat
        → IsBoardOfDesign planned.plan.period design (emitted_text planned) }
{
    emitted_texts_spell_designs();
    histories_agree();
}

//! Laws of the definitions, as contracts of functions that do nothing.
ghost use Rattle.std.specs.Prelude.{◌≡◌, ℕ, List, IsTrue};
ghost use Rattle.vw_plan.specs.declared.board.Board.{Board};
ghost use Rattle.vw_board.specs.declared.fault.BoardFault.{BoardFault};
ghost use Rattle.vw_board.specs.BoardText.{Spells, Refuses, is_text_fault};
ghost use Rattle.vw_board.specs.FirstStep.{IsFirstStep};

/// A text spells one board at most.
pub fn boards_spell_once()
    ensures { (text : List ℕ) (one other : Board) → Spells text one → Spells text other
        → one ≡ other }
{}

/// A text has one fault at most, and a text that spells a board has none.
pub fn board_faults_are_single()
    ensures single { (text : List ℕ) (one other : BoardFault)
        → IsTrue (is_text_fault one) → IsTrue (is_text_fault other)
        → Refuses text one → Refuses text other → one ≡ other }
    ensures faultless { (text : List ℕ) (board : Board) (fault : BoardFault) → Spells text board
        → IsTrue (is_text_fault fault) → ¬ (Refuses text fault) }
{}

/// From a node towards another there is one first step at most.
pub fn first_steps_are_one()
    ensures { (board : Board) (from to one other : ℕ) → IsFirstStep board from to one
        → IsFirstStep board from to other → one ≡ other }
{}

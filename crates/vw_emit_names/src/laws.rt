//! Laws of the definitions, as contracts of functions that do nothing.
ghost use Rattle.std.specs.Prelude.{◌≡◌, Bool, List, None, length};
ghost use Rattle.vw_design.specs.Accepted.{IsAccepted};
ghost use Rattle.vw_design.specs.Clocks.{columns};
ghost use Rattle.vw_design.specs.Limits.{IsSmall};
ghost use Rattle.vw_design.specs.Loops.{IsLoopFree};
ghost use Rattle.vw_design.specs.NetFaults.{two_drivers};
ghost use Rattle.vw_design.specs.declared.design.Design.{Design};
ghost use Rattle.vw_plan.specs.PlannedBoard.{PlannedBoard};
ghost use Rattle.vw_plan.specs.Sound.{IsSound};
ghost use Rattle.vw_emit_hardware.specs.Run.{IsRun, Values};
ghost use Rattle.vw_emit_names.specs.Boards.{IsBoardOf};
ghost use Rattle.vw_emit_names.specs.Shows.{ActsAs};

/// A design that is the emitted board of a sound plan has no fault, if no quantity of it is above its limit, and its gates
/// don't read each other in a circle. However large it is, no net of it has two drivers.
pub fn emitted_boards_are_accepted()
    ensures one_driver { (planned : PlannedBoard) (board : Design) → IsSound planned
        → IsBoardOf planned board → two_drivers board ≡ None }
    ensures accepted { (planned : PlannedBoard) (board : Design) → IsSound planned
        → IsBoardOf planned board → IsSmall board → IsAccepted board }
    ensures loop_free { (planned : PlannedBoard) (board : Design) → IsSound planned
        → IsBoardOf planned board → IsSmall board → IsLoopFree board }
{}

/// It takes rows of the same width as the design that was planned. It shows, at the last microclock of each clock, the
/// outputs and then the latch values of that design, for all rows, each held for as many microclocks as a clock has. And
/// over any rows its nets have the bits of a run of the board's nodes, so that there is such a run.
pub fn emitted_boards_act_as_their_designs()
    ensures columns { (planned : PlannedBoard) (board : Design) → IsSound planned
        → IsBoardOf planned board → IsSmall board
        → length (columns board) ≡ planned.ordered.flat.inputs }
    ensures acts { (planned : PlannedBoard) (board : Design) → IsSound planned
        → IsBoardOf planned board → IsSmall board → (unknown : Bool) (rows : List (List Bool))
        → ActsAs planned board unknown rows }
    ensures runs { (planned : PlannedBoard) (board : Design) → IsSound planned
        → IsBoardOf planned board → IsSmall board → (unknown : Bool) (rows : List (List Bool))
        → (value : Values) × IsRun planned unknown rows value }
{}

//! Laws of the definitions, as contracts of functions that do nothing.
ghost use Rattle.std.specs.Prelude.{◌≡◌, Some, None};
ghost use Rattle.vw_net.specs.declared.ordered.Ordered.{Ordered};
ghost use Rattle.vw_plan.specs.declared.board.Board.{Board};
ghost use Rattle.vw_plan.specs.declared.plan.Plan.{Plan};
ghost use Rattle.vw_plan.specs.PlannedBoard.{PlannedBoard, planned_board};
ghost use Rattle.vw_plan.specs.Sound.{IsSound};
ghost use Rattle.vw_check.specs.declared.fault.PlanFault.{PlanFault};
ghost use Rattle.vw_check.specs.Faults.{plan_fault};
ghost use Rattle.vw_check.specs.Answers.{Breaks};

/// A plan without a fault is sound.
pub fn faultless_plans_are_sound()
    ensures { (planned : PlannedBoard) → plan_fault planned ≡ None → IsSound planned }
{}

/// A sound plan has no fault.
pub fn sound_plans_are_faultless()
    ensures { (planned : PlannedBoard) → IsSound planned → plan_fault planned ≡ None }
{}

/// A fault breaks a point of a sound plan.
pub fn faults_break_points()
    ensures { (planned : PlannedBoard) (fault : PlanFault) → plan_fault planned ≡ Some fault
        → Breaks planned fault }
{}

/// The fault of a plan is the same whatever the order of the gates.
pub fn orders_change_no_fault()
    ensures { (board : Board) (plan : Plan) (one other : Ordered) → one.flat ≡ other.flat
        → plan_fault (planned_board one board plan) ≡ plan_fault (planned_board other board plan) }
{}

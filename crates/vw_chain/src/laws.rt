//! A law of what a period waits for, as the contract of a function that does nothing.
ghost use Rattle.std.specs.Prelude.{◌≡◌, ◌≤◌};
ghost use Rattle.vw_plan.specs.declared.plan.Plan.{Plan};
ghost use Rattle.vw_plan.specs.PlannedBoard.{PlannedBoard, planned_board};
ghost use Rattle.vw_plan.specs.Sound.{IsSound};
ghost use Rattle.vw_chain.specs.declared.chain.Critical.{Critical};
ghost use Rattle.vw_chain.specs.Chains.{IsCritical};

/// With the chips and the wires of a sound plan, another period is sound exactly where it is at least 1 and at least the
/// microcycle to which the chain leads.
pub fn chains_set_periods()
    ensures enough { (planned : PlannedBoard) (found : Critical) (other : Plan)
        → IsSound planned → IsCritical planned found
        → other.chip_of ≡ planned.plan.chip_of → other.wires ≡ planned.plan.wires
        → 1 ≤ other.period → found.last ≤ other.period
        → IsSound (planned_board planned.ordered planned.board other) }
    ensures needed { (planned : PlannedBoard) (found : Critical) (other : Plan)
        → IsCritical planned found
        → other.chip_of ≡ planned.plan.chip_of → other.wires ≡ planned.plan.wires
        → IsSound (planned_board planned.ordered planned.board other)
        → found.last ≤ other.period }
{}

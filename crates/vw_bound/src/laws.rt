//! Laws of the definitions, as contracts of functions that do nothing.
ghost use Rattle.std.specs.Prelude.{◌≡◌};
ghost use Rattle.vw_plan.specs.declared.plan.Plan.{Plan};
ghost use Rattle.vw_plan.specs.PlannedBoard.{planned_board};
ghost use Rattle.vw_plan.specs.Sound.{IsSound};
ghost use Rattle.vw_bound.specs.Pins.{PairsFit};
ghost use Rattle.vw_bound.specs.Bounds.{IsPeriodBound};
ghost use Rattle.vw_bound.specs.PlacedDesigns.{PlacedDesign};
ghost use Rattle.vw_bound.specs.Times.{depth_bound};

/// No sound plan has a smaller period than the depth of the design asks for.
pub fn depths_bound_periods()
    ensures { (placed : PlacedDesign) → IsPeriodBound placed (depth_bound placed) }
{}

/// In the period of a sound plan, the pins of each node have room for its pairs.
pub fn pairs_fit_in_periods()
    ensures { (placed : PlacedDesign) (plan : Plan) → plan.chip_of ≡ placed.chip_of
        → IsSound (planned_board placed.ordered placed.board plan)
        → PairsFit placed plan.period }
{}

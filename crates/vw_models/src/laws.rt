//! Laws of orders of models.
ghost use Rattle.std.specs.Prelude.{ℕ, List};
ghost use Rattle.vw_design.specs.declared.design.Design.{Design};
ghost use Rattle.vw_design.specs.Paths.{Word};
ghost use Rattle.vw_design.specs.ModelFaults.{IsModelCircle};
ghost use Rattle.vw_design.specs.ModelNumbers.{IsModelOrder};

/// Where the models that are reached have an order, they don't place each other in a circle.
pub fn ordered_is_no_circle()
    ensures { (design : Design) (order : List ℕ) → IsModelOrder design order
        → (names : List Word) → IsModelCircle design names → ⊥ }
{}

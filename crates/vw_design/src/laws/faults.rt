//! Laws of faults and of limits.
ghost use Rattle.std.specs.Prelude.{◌≡◌, ◌≤◌, List, None, length};
ghost use Rattle.vw_design.specs.declared.design.Design.{Design};
ghost use Rattle.vw_design.specs.Paths.{Word};
ghost use Rattle.vw_design.specs.Clocks.{columns};
ghost use Rattle.vw_design.specs.Limits.{input_count, IsSmall, too_big};
ghost use Rattle.vw_design.specs.Accepted.{IsAccepted, Fault, recursive, IsFaultOf};

/// A design is accepted exactly where it has no fault, and it has one fault, but for the list of a circle.
pub fn faults_are_exact()
    ensures accepted { (design : Design) → IsAccepted design → (fault : Fault)
        → IsFaultOf design fault → ⊥ }
    ensures faultless { (design : Design) → ((fault : Fault) → IsFaultOf design fault → ⊥)
        → IsAccepted design }
    ensures single { (design : Design) (one other : Fault) → IsFaultOf design one
        → IsFaultOf design other → ((names : List Word) → one ≡ recursive names → ⊥) → one ≡ other }
{}

/// No quantity of a design is too big exactly where all are small, and the columns are no more than the inputs that
/// count.
pub fn sizes_are_small()
    ensures small { (design : Design) → too_big design ≡ None → IsSmall design }
    ensures fits { (design : Design) → IsSmall design → too_big design ≡ None }
    ensures columns { (design : Design) → length (columns design) ≤ input_count design }
{}

//! Laws of nets that may be watched.
ghost use Rattle.std.specs.Prelude.{◌≡◌, ◌<◌, ◌+◌, ℕ, true, ◌∷◌, Some, length};
ghost use Rattle.vw_design.specs.declared.design.Design.{Design};
ghost use Rattle.vw_design.specs.declared.model.Model.{Model};
ghost use Rattle.vw_design.specs.Paths.{Word, Path, model_at};
ghost use Rattle.vw_design.specs.Drivers.{driver};
ghost use Rattle.vw_design.specs.Preorder.{cells};
ghost use Rattle.vw_design.specs.Clocks.{columns};
ghost use Rattle.vw_design.specs.Limits.{instance_count};
ghost use Rattle.vw_design.specs.Probes.{has_bit};
ghost use Rattle.vw_design.specs.Flattened.{number_of};
ghost use Rattle.vw_design.specs.Accepted.{HasNoModelFault, IsAccepted};

/// In an accepted design a net has a bit at each clock exactly where it has a number, that of a column or of a cell.
pub fn bits_have_numbers()
    ensures numbered { (design : Design) → IsAccepted design → (path : Path) (name : Word)
        → has_bit design (driver design path name) ≡ true
        → (number : ℕ) × (number_of design path name ≡ Some number)
        × (number < length (columns design) + length (cells design)) }
    ensures bits { (design : Design) (path : Path) (name : Word) (number : ℕ)
        → number_of design path name ≡ Some number → has_bit design (driver design path name) ≡ true }
{}

/// A net that has a bit is one of an instance.
pub fn bits_are_in_instances()
    ensures { (design : Design) (path : Path) (name : Word)
        → has_bit design (driver design path name) ≡ true
        → (model : Model) × (model_at design path ≡ Some model) }
{}

/// Without a fault of models the place of an instance is smaller than the number of all instances.
pub fn places_are_few()
    ensures { (design : Design) → HasNoModelFault design → (place : ℕ) (path : Path) (model : Model)
        → model_at design (place ∷ path) ≡ Some model → place < instance_count design }
{}

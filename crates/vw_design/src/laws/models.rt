//! Laws of the models that are reached.
ghost use Rattle.std.specs.Prelude.{◌≡◌, ℕ, Bool, List, [], Some, is_some, IsTrue};
ghost use Rattle.vw_design.specs.declared.design.Design.{Design};
ghost use Rattle.vw_design.specs.declared.model.Model.{Model};
ghost use Rattle.vw_design.specs.Paths.{Word, Path, model_named, model_at};
ghost use Rattle.vw_design.specs.ModelFaults.{is_reached, model_places, IsModelCircle};
ghost use Rattle.vw_design.specs.Counts.{IsRanking};

/// The models that are reached are the root, those that a reached model places, and no others.
pub fn reached_models()
    ensures instances { (design : Design) (path : Path) (model : Model)
        → model_at design path ≡ Some model → IsTrue (is_reached design model.name) }
    ensures placed { (design : Design) (name placed : Word) → IsTrue (is_reached design name)
        → IsTrue (model_places (model_named design.models name) placed)
        → IsTrue (is_some (model_named design.models placed)) → IsTrue (is_reached design placed) }
    ensures least { (design : Design) (root : Model) → model_at design [] ≡ Some root
        → (test : Word → Bool) → IsTrue (test root.name)
        → ((name placed : Word) → IsTrue (test name)
        → IsTrue (model_places (model_named design.models name) placed)
        → IsTrue (is_some (model_named design.models placed)) → IsTrue (test placed))
        → (name : Word) → IsTrue (is_reached design name) → IsTrue (test name) }
{}

/// Where the models that are reached have ranks that fall to what they place, they don't place each other in a circle.
pub fn ranked_models()
    ensures { (design : Design) (rank : Word → ℕ) → IsRanking design (is_reached design) rank
        → (names : List Word) → IsModelCircle design names → ⊥ }
{}

//! Laws of the definitions, as contracts of functions that do nothing.
ghost use Rattle.std.specs.Prelude.{◌≡◌, ◌++◌, [], ℕ, List, IsTrue};
ghost use Rattle.vw_plan.specs.declared.plan.Plan.{Plan};
ghost use Rattle.vw_plantext.specs.declared.fault.PlanTextFault.{PlanTextFault};
ghost use Rattle.vw_plantext.specs.Content.{Content, IsInRange};
ghost use Rattle.vw_plantext.specs.Grammar.{spelling};
ghost use Rattle.vw_plantext.specs.CanStand.{IsFirstBadLine};
ghost use Rattle.vw_plantext.specs.ChipsText.{SpellsChips, RefusesChips};
ghost use Rattle.vw_plantext.specs.PlanText.{Spells, Refuses, is_text_fault};

/// Two plans have two spellings, and no spelling begins with another one: where one is the front of another, both are of
/// one plan, and nothing is left.
pub fn spellings_differ()
    ensures { (one other : Content) (rest : List ℕ) → IsInRange one → IsInRange other
        → spelling one ++ rest ≡ spelling other → (one ≡ other) × (rest ≡ []) }
{}

/// A text has at most one first line that can't stand there.
pub fn one_line_is_first()
    ensures { (text : List ℕ) (one other : ℕ) → IsFirstBadLine text one → IsFirstBadLine text other
        → one ≡ other }
{}

/// A text spells one plan at most.
pub fn plans_spell_once()
    ensures { (text : List ℕ) (one other : Plan) → Spells text one → Spells text other
        → one ≡ other }
{}

/// A text has one fault at most, and a text that spells a plan has none.
pub fn plan_text_faults_are_single()
    ensures single { (text : List ℕ) (one other : PlanTextFault)
        → IsTrue (is_text_fault one) → IsTrue (is_text_fault other)
        → Refuses text one → Refuses text other → one ≡ other }
    ensures faultless { (text : List ℕ) (plan : Plan) (fault : PlanTextFault) → Spells text plan
        → IsTrue (is_text_fault fault) → ¬ (Refuses text fault) }
{}

/// A text spells the chips of one list at most, and one that spells some has no fault.
pub fn chips_spell_once()
    ensures once { (text one other : List ℕ) → SpellsChips text one → SpellsChips text other
        → one ≡ other }
    ensures faultless { (text chips : List ℕ) (fault : PlanTextFault) → SpellsChips text chips
        → IsTrue (is_text_fault fault) → ¬ (RefusesChips text fault) }
{}

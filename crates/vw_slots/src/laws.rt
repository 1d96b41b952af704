//! Laws of the definitions, as contracts of functions that do nothing.
ghost use Rattle.std.specs.Prelude.{◌≡◌, ℕ};
ghost use Rattle.vw_slots.specs.Slots.{Slots, IsFirstFree};
ghost use Rattle.vw_slots.specs.declared.slot.Slot.{Slot};

/// A link has one first free slot at most, not before a microcycle.
pub fn first_slots_are_one()
    ensures { (slots : Slots) (link not_before : ℕ) (one other : Slot)
        → IsFirstFree slots link not_before one → IsFirstFree slots link not_before other
        → one ≡ other }
{}

//! Laws of the definitions, as contracts of functions that do nothing.
ghost use Rattle.std.specs.Prelude.{ℕ, List};
ghost use Rattle.vw_outside.specs.Reads.{CountsFault};
ghost use Rattle.vw_outside.specs.Writes.{SeenSink, FailedAfterPart};
ghost use Rattle.vw_outside.specs.Sure.{SureTexts, seen_sure, nothing_seen};

/// No call counts a fault at a `SureShelf`, so none ends by a read that failed.
pub fn no_read_fault_over_a_sure_shelf()
    ensures { (name : List ℕ) (before after : SureTexts)
        → CountsFault name (seen_sure before) (seen_sure after) → ⊥ }
{}

/// No call counts a fault at a `SureSink`, so none ends by a write that failed.
pub fn no_write_fault_over_a_sure_sink()
    ensures { (bytes : List ℕ) → FailedAfterPart bytes nothing_seen nothing_seen → ⊥ }
{}

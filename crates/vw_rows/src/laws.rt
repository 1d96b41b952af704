//! A law of the definitions, as the contract of a function that does nothing.
ghost use Rattle.std.specs.Prelude.{◌≡◌, ◌≤◌, ℕ, Bool, List, length, Ok};
ghost use Rattle.std.specs.List.{All};
ghost use Rattle.vw_rows.specs.Stimulus.{stimulus_rows};
ghost use Rattle.vw_rows.specs.Written.{rows_written};
ghost use Rattle.vw_rows.specs.declared.limits.TheConstants.{MOST_STIMULUS_BYTES};

/// Rows that are written one a line are read back, where their text isn't too long.
pub fn plain_rows_read()
    ensures { (width : ℕ) (rows : List (List Bool)) → All (λ row. length row ≡ width) rows
        → length (rows_written rows) ≤ MOST_STIMULUS_BYTES
        → stimulus_rows width (rows_written rows) ≡ Ok rows }
{}

//! Laws of the definitions, as contracts of functions that do nothing.
ghost use Rattle.std.specs.Prelude.{◌≡◌, ◌<◌, ◌+◌, ◌++◌, ◌∷◌, ◌^◌, ℕ, Bool, List, [], Option, None, length};
ghost use Rattle.vw_text.specs.Physical.{lines_text};
ghost use Rattle.vw_vcd.specs.Changes.{last_row};
ghost use Rattle.vw_vcd.specs.Identifiers.{identifier};
ghost use Rattle.vw_vcd.specs.Lines.{lines_of_clocks, lines_of_head, time_line, wave_text_from};
ghost use Rattle.vw_vcd.specs.Replayed.{WavesReplay};

/// No two signals have one identifier.
pub fn identifiers_differ()
    ensures { (one other : ℕ) → one < 2 ^ 32 → other < 2 ^ 32 → identifier one ≡ identifier other → one ≡ other }
{}

/// A wave is its head, its clocks, and its last line. Its clocks are some of them, and then the others behind the last of
/// these.
pub fn waves_join()
    ensures parts { (first : ℕ) (nets : List (List ℕ)) (rows : List (List Bool)) → wave_text_from first nets rows
        ≡ lines_text (lines_of_head nets)
        ++ (lines_text (lines_of_clocks first None rows) ++ lines_text (time_line (first + length rows) ∷ [])) }
    ensures joined { (clock : ℕ) (before : Option (List Bool)) (rows more : List (List Bool))
        → lines_of_clocks clock before (rows ++ more)
        ≡ lines_of_clocks clock before rows ++ lines_of_clocks (clock + length rows) (last_row before rows) more }
{}

/// The replay of a wave gives the values of every signal in every clock from the first on, its last time is the number behind
/// the last clock, and each value behind the first block is a change.
pub fn waves_replay()
    ensures { WavesReplay }
{}

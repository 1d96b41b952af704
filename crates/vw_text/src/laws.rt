//! Laws of the definitions, as contracts of functions that do nothing.
ghost use Rattle.std.specs.Prelude.{◌≡◌, ℕ, List};
ghost use Rattle.std.specs.List.{AllByRecursion};
ghost use Rattle.vw_text.specs.Physical.{text_lines, lines_text, ended};
ghost use Rattle.vw_text.specs.WordLines.{word_lines};
ghost use Rattle.vw_text.specs.PlainLines.{IsPlainLine, plain_text, numbered_lines};

/// The physical lines of a text, each with its end, are the text again; a last line that had no end has one.
pub fn lines_join()
    ensures { (text : List ℕ) → lines_text (text_lines text) ≡ ended text }
{}

/// Plain words, written with one space between them and a line for each list of them, are read back.
pub fn plain_lines_read()
    ensures { (lines : List (List (List ℕ))) → AllByRecursion IsPlainLine lines
        → word_lines (plain_text lines) ≡ numbered_lines 1 lines }
{}

ghost use Rattle.std.specs.Prelude.{◌≡◌};
ghost use Rattle.vw_blif.specs.Kinds.{kind_of, kind};

use crate::copies::{first, is};
use vw_text::Line;

/// What a line is, by its first word.
#[derive(Clone, Copy, Debug, PartialEq, Eq)]
pub enum Kind {
    Model,
    Inputs,
    Outputs,
    Clock,
    Names,
    Latch,
    Subckt,
    End,
    /// Another word with a point in front.
    Other,
    /// Any other word: a row of a table.
    Row,
}

/// The kind of a first word.
fn kind_of(word: &[u8]) -> Kind
    ensures { result ≡ kind_of word.now }
{
    // most lines are rows
    if word.first() != Some(&b'.') {
        Kind::Row
    } else if is(word, b".model") {
        Kind::Model
    } else if is(word, b".inputs") {
        Kind::Inputs
    } else if is(word, b".outputs") {
        Kind::Outputs
    } else if is(word, b".clock") {
        Kind::Clock
    } else if is(word, b".names") {
        Kind::Names
    } else if is(word, b".latch") {
        Kind::Latch
    } else if is(word, b".subckt") {
        Kind::Subckt
    } else if is(word, b".end") {
        Kind::End
    } else {
        Kind::Other
    }
}

/// The kind of a line.
pub fn line_kind(line: &Line) -> Kind
    ensures { result ≡ kind line.now }
{
    kind_of(first(line))
}

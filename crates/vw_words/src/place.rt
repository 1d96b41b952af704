ghost use Rattle.std.specs.Prelude.{◌≡◌};

use crate::value::Value;
use vw_outside::Name;

/// What a form has in one place.
#[derive(Clone, Copy)]
pub enum Place {
    /// This very word.
    Keyword(&'static [u8]),
    /// Any word that is such a value.
    Any(Value),
}

impl Place {
    ghost use Rattle.vw_words.specs.Forms.{suits};
    ghost use Rattle.vw_words.specs.Views.{place_view};

    /// Whether a word may stand there.
    pub fn suits(&self, word: &Name) -> bool
        ensures { result ≡ suits (place_view self.now) word.now }
    {
        match self {
            Place::Keyword(wanted) => word.is(wanted),
            Place::Any(value) => value.has(word.as_slice()),
        }
    }
}

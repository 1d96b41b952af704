ghost use Rattle.std.specs.Prelude.{◌≡◌};

use vw_net::Sequence;
use vw_outside::Name;

/// A logical line with words.
pub struct Line {
    /// The number of its first physical line, from 1.
    pub number: u64,
    /// Its words, at least one, in order.
    pub words: Sequence<Name>,
}

impl Drop for Line {
    fn drop(self) {
        let Line {
            number: _,
            words: _,
        } = self;
    }
}

impl Line {
    /// The line with this number and these words.
    pub fn make(number: u64, words: Sequence<Name>) -> Self
        ensures number { result.number ≡ number }
        ensures words { result.words ≡ words }
    {
        Line { number, words }
    }

    /// The number of its first physical line, from 1.
    pub fn number(&self) -> u64
        ensures { result ≡ self.now.number }
    {
        self.number
    }

    /// The words, in order.
    pub fn words(&self) -> &[Name]
        ensures { result.now ≡ self.now.words }
    {
        self.words.as_slice()
    }
}

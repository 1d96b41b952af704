ghost use Rattle.std.specs.Prelude.{◌≡◌, count_by, length};
ghost use Rattle.std.specs.Option.{option_copied};

use crate::names::Names;
use crate::value::Value;
use vw_outside::Name;
use vw_text::number_in;

/// What a word behind the places may set. Such a word is the setting's name, `=`, and a value.
#[derive(Clone, Copy)]
pub struct Setting {
    pub name: &'static [u8],
    pub value: Value,
    /// How many words may give it, at most.
    pub times: usize,
}

impl Setting {
    ghost use Rattle.vw_words.specs.Forms.{given, gives};
    ghost use Rattle.vw_words.specs.Values.{names_given, name_given, bit_given, number_given};
    ghost use Rattle.vw_words.specs.Views.{setting_view};

    /// The value that a word gives the setting, if it gives it one: the bytes behind the `=`.
    pub fn given<'a>(&self, word: &'a Name) -> Option<&'a [u8]>
        ensures { option_copied result ≡ given (setting_view self.now) word.now }
    {
        let text = word.as_slice().strip_prefix(self.name)?.strip_prefix(b"=")?;
        if self.value.has(text) {
            Some(text)
        } else {
            None
        }
    }

    /// Whether a word gives the setting a value.
    pub fn gives(&self, word: &Name) -> bool
        ensures { result ≡ gives (setting_view self.now) word.now }
    {
        self.given(word).is_some()
    }

    /// How many of these words give the setting a value.
    pub fn times_given(&self, words: &[Name]) -> usize
        ensures { result ≡ count_by (gives (setting_view self.now)) words.now }
    {
        words.iter().filter(|word| self.gives(word)).count()
    }

    /// All values that these words give the setting, in order, as many as words give it. It takes no memory.
    pub fn names<'a>(&self, words: &'a [Name]) -> Names<'a>
        ensures values { result ≡ names_given (setting_view self.now) words.now }
        ensures count { length result ≡ count_by (gives (setting_view self.now)) words.now }
    {
        Names::new(*self, words)
    }

    /// The first value that these words give the setting, if there is one.
    pub fn name<'a>(&self, words: &'a [Name]) -> Option<&'a [u8]>
        ensures { option_copied result ≡ name_given (setting_view self.now) words.now }
    {
        self.names(words).next()
    }

    /// Whether the first value that these words give the setting is `1`; the default where they give it none.
    pub fn bit(&self, words: &[Name], default: bool) -> bool
        ensures { result ≡ bit_given (setting_view self.now) default words.now }
    {
        match self.name(words) {
            Some(value) => value == b"1".as_slice(),
            None => default,
        }
    }

    /// The number that the first value spells which these words give the setting; the default where they give it
    /// none, and 0 where the value spells no number.
    pub fn number(&self, words: &[Name], default: u64) -> u64
        ensures { result ≡ number_given (setting_view self.now) default words.now }
    {
        match self.name(words) {
            Some(value) => number_in(value).unwrap_or(0),
            None => default,
        }
    }
}

ghost use Rattle.std.specs.Prelude.{◌≡◌, ◌≤◌, [], length};
ghost use Rattle.vw_words.specs.Matched.{is_setting, matched_settings};
ghost use Rattle.vw_words.specs.Views.{settings_view};

use crate::place::Place;
use crate::setting::Setting;
use vw_outside::Name;

/// The words that a command has: one in each place, and settings behind them, in any order.
#[derive(Clone, Copy)]
pub struct Form {
    pub places: &'static [Place],
    pub settings: &'static [Setting],
}

/// Whether a word gives a setting that may be given once more behind the words before it.
fn is_setting(settings: &[Setting], before: &[Name], word: &Name) -> bool
    ensures { result ≡ is_setting (settings_view settings.now) before.now word.now }
{
    for setting in settings {
        if setting.gives(word) && setting.times_given(before) < setting.times {
            return true;
        }
    }
    false
}

/// How many words, from the first, give settings, each so often at most as it may.
fn matched_settings(settings: &[Setting], words: &[Name]) -> usize
    ensures count { result ≡ matched_settings (settings_view settings.now) [] words.now }
    ensures within { result ≤ length words.now }
{
    for (at, word) in words.iter().enumerate() {
        if !is_setting(settings, &words[..at], word) {
            return at;
        }
    }
    words.len()
}

impl Form {
    ghost use Rattle.vw_words.specs.Matched.{matched_by, has_form};
    ghost use Rattle.vw_words.specs.Views.{form_view};

    /// How many words, from the first, are as the form has them.
    pub fn matched(&self, words: &[Name]) -> usize
        ensures count { result ≡ matched_by (form_view self.now) words.now }
        ensures within { result ≤ length words.now }
    {
        for (at, place) in self.places.iter().enumerate() {
            let Some(word) = words.get(at) else {
                return at;
            };
            if !place.suits(word) {
                return at;
            }
        }
        let places = self.places.len();
        places + matched_settings(self.settings, &words[places..])
    }

    /// Whether the words have the form: there is a word for each place, and each word behind them gives one of the
    /// settings a value, and none more often than it may.
    pub fn has(&self, words: &[Name]) -> bool
        ensures { result ≡ has_form words.now (form_view self.now) }
    {
        self.matched(words) == words.len() && self.places.len() <= words.len()
    }
}

ghost use Rattle.std.specs.Prelude.{◌≡◌};
ghost use Rattle.vw_words.specs.Values.{names_given};
ghost use Rattle.vw_words.specs.Views.{setting_view};

use crate::setting::Setting;
use std::marker::Model;
use vw_outside::Name;

/// The values that words give a setting, one after the other. Contracts see the list of those that are left.
#[derive(Drop)]
pub struct Names<'a> {
    setting: Setting,
    words: &'a [Name],
}

impl<'a> Model for Names<'a> {
    ghost use Rattle.std.specs.Prelude.{ℕ, List};
    ghost use Rattle.vw_words.specs.Values.{names_given};
    ghost use Rattle.vw_words.specs.Views.{setting_view};

    ghost Value = { List (List ℕ) };

    ghost view = { λ names. names_given (setting_view names.setting) names.words.now };
}

impl<'a> Names<'a> {
    /// All values that these words give the setting.
    pub(crate) fn new(setting: Setting, words: &'a [Name]) -> Self
        ensures { result ≡ names_given (setting_view setting) words.now }
    {
        Names { setting, words }
    }
}

impl<'a> Iterator for Names<'a> {
    ghost use Rattle.std.specs.Iterator.{YieldsFirstRef, item_count};

    type Item = &'a [u8];

    ghost next_gives = { YieldsFirstRef (λ left. left) };

    ghost remaining = { item_count (λ left. left) };

    fn next(&mut self) -> Option<&'a [u8]> {
        while let Some((word, rest)) = self.words.split_first() {
            self.words = rest;
            if let Some(value) = self.setting.given(word) {
                return Some(value);
            }
        }
        None
    }
}

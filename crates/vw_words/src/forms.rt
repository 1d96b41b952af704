//! A table of commands, with the forms of their words.
ghost use Rattle.std.specs.List.{find};
ghost use Rattle.std.specs.Prelude.{◌≡◌, option_map};
ghost use Rattle.vw_words.specs.Matched.{first_wrong, has_form};
ghost use Rattle.vw_words.specs.Views.{form_view, forms_view};

use crate::form::Form;
use vw_outside::Name;

/// A command, and the form of its words.
#[derive(Clone, Copy)]
pub struct Entry<C> {
    pub command: C,
    pub form: Form,
}

/// The first command whose form the words have. Their settings stand behind a word for each of its places.
pub fn command_of<C: Copy>(table: &[Entry<C>], words: &[Name]) -> Option<C>
    ensures { result ≡ option_map (λ entry. entry.command)
        (find (λ entry. has_form words.now (form_view entry.form)) table.now) }
{
    for entry in table {
        if entry.form.has(words) {
            return Some(entry.command);
        }
    }
    None
}

/// The place, from 1, of the first word that no form has there. Where some form has all the words, it is the place
/// behind the last one.
pub fn first_wrong<C>(table: &[Entry<C>], words: &[Name]) -> u64
    ensures { result ≡ first_wrong (forms_view table.now) words.now }
{
    let mut furthest = 0;
    for entry in table {
        furthest = furthest.max(entry.form.matched(words));
    }
    furthest as u64 + 1
}

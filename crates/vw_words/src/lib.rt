//! The words of a command line, matched against a table of forms, and the values of settings among them. In the field:
//! command lines parsed by a grammar.
#![tactic(auto)]

mod form;
mod forms;
mod laws;
mod names;
mod place;
mod setting;
mod value;

pub use form::Form;
pub use forms::{Entry, command_of, first_wrong};
pub use laws::{form_has_words, words_have_form, wrong_words_follow_the_longest_front};
pub use names::Names;
pub use place::Place;
pub use setting::Setting;
pub use value::{Value, number_or_zero, part_in};

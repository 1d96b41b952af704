//! Laws on words and forms.
ghost use Rattle.std.specs.Prelude.{ℕ, List, ◌∷◌, ◌++◌, IsTrue};
ghost use Rattle.std.specs.List.{All};
ghost use Rattle.vw_words.specs.FirstWrong.{CanBeGiven, IsFirstWrong};
ghost use Rattle.vw_words.specs.Forms.{Form};
ghost use Rattle.vw_words.specs.Matched.{first_wrong, has_form};
ghost use Rattle.vw_words.specs.WordsOfForms.{AreWordsOf, HasWordsOf, are_told_apart};

/// A law: words have a form where a word stands for each of its places, and behind them, in any order, words that each
/// give a setting, none of which is given more often than it may.
pub fn words_have_form()
    ensures { (form : Form) (front settings : List (List ℕ)) → AreWordsOf form front settings
        → IsTrue (has_form (front ++ settings) form) }
{}

/// A law: words that have a form are such words, where its settings have names of their own.
pub fn form_has_words()
    ensures { (form : Form) (words : List (List ℕ)) → IsTrue (are_told_apart form.settings)
        → IsTrue (has_form words form)
        → HasWordsOf form words }
{}

/// A law: the first wrong word stands behind the longest front of the words that is a front of some command's words. Each
/// place of a form must have a word that suits it.
pub fn wrong_words_follow_the_longest_front()
    ensures { (form : Form) (forms : List Form) (words : List (List ℕ))
        → All CanBeGiven (form ∷ forms)
        → IsFirstWrong (form ∷ forms) words (first_wrong (form ∷ forms) words) }
{}

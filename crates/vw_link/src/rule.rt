//! The rule of a link's queue: what each end knows, and what a step does to that.
ghost use Rattle.std.specs.Prelude.{◌≡◌, List};
ghost use Rattle.crossbeam_queue.specs.Passes.{view, IsPassOf};
ghost use Rattle.vw_prog.specs.declared.word.Word.{Word};
ghost use Rattle.vw_prog.specs.Scripts.{script};
ghost use Rattle.vw_link.specs.Rule.{sending, taking, whole};

use crossbeam_queue::protocol::{Lesson, Outcome, Protocol, Split};
use crossbeam_queue::{Pass, RuledArrayQueue};
use std::collections::LinkedList;
use std::marker::{Brand, PhantomData};
use vw_prog::{Job, Word};

/// What a pass of a link may do (put words in, take them out), the script of the link, and how many of its words the pass has put
/// in and taken out. No value of it is made.
pub struct View {
    pub puts: bool,
    pub takes: bool,
    pub words: LinkedList<Word>,
    pub sent: u64,
    pub taken: u64,
}

/// The words on a link are those of its script that were put in and not yet taken out.
pub struct InScript;

impl Protocol<Word, View> for InScript {
    ghost use Rattle.vw_link.specs.Rule.{Carries, whole};

    ghost holds = { Carries };

    ghost first = { whole };
}

/// The script's next word is put in. Where it is refused, the queue held no more words than had been put in.
pub struct Put;

impl Outcome<Word, View> for Put {
    ghost use Rattle.std.specs.Prelude.{◌≡◌, ◌+◌};

    ghost then = { λ v word w. w ≡ record v { sent = v.sent + 1 } };
}

impl Lesson<Word, View> for Put {
    ghost use Rattle.std.specs.Prelude.{◌≤◌, length};

    ghost fact = { λ v items. length items ≤ v.sent };
}

/// The script's next word is taken out.
pub struct Take;

impl Outcome<Word, View> for Take {
    ghost use Rattle.std.specs.Prelude.{◌≡◌, ◌+◌, Some, slice_get};

    ghost then = { λ v word w. (slice_get v.words v.taken ≡ Some word)
        × (w ≡ record v { taken = v.taken + 1 }) };
}

impl Lesson<Word, View> for Take {
    ghost fact = { λ v items. Unit {0} };
}

/// A list of words that only proofs know.
pub trait Scripted {
    ghost words: { List Word };
}

impl Scripted for Brand {
    ghost use Rattle.std.specs.Prelude.{[]};

    ghost words = { [] };
}

/// The pass of a new link becomes those of its two ends, with a script.
pub struct Cut<S: Scripted> {
    of: PhantomData<S>,
}

impl<S: Scripted> Split<View> for Cut<S> {
    ghost use Rattle.vw_link.specs.Rule.{sending, taking};

    ghost left = { λ _. sending S.words 0 };

    ghost right = { λ _. taking S.words 0 };
}

/// The queue of a link.
pub type Line = RuledArrayQueue<Word, View, InScript>;

/// Makes the pass of a new link those of its two ends, with the script of a job and a link.
fn cut_as<S: Scripted>(
    line: &Line,
    pass: &mut Pass<Word, View>,
    job: &Job,
    link: u32,
) -> Pass<Word, View>
    requires script { S.words ≡ script job.now link }
    requires queue { IsPassOf line.now pass.old }
    requires fresh { view pass.old ≡ whole }
    ensures left { IsPassOf line.now pass.new
        × (view pass.new ≡ sending (script job.now link) 0) }
    ensures right { IsPassOf line.now result
        × (view result ≡ taking (script job.now link) 0) }
{
    line.another::<Cut<S>>(pass)
}

/// Makes the pass of a new link that of the end at which words are put in, with the script of a job and a link, and gives that of the
/// other end.
pub fn two_ends(line: &Line, pass: &mut Pass<Word, View>, job: &Job, link: u32) -> Pass<Word, View>
    requires queue { IsPassOf line.now pass.old }
    requires fresh { view pass.old ≡ whole }
    ensures left { IsPassOf line.now pass.new
        × (view pass.new ≡ sending (script job.now link) 0) }
    ensures right { IsPassOf line.now result
        × (view result ≡ taking (script job.now link) 0) }
{
    cut_as::<Brand>(line, pass, job, link)
}

//! The end of a link at which words are taken out.
ghost use Rattle.std.specs.Prelude.{◌≡◌, ◌+◌, ℕ, true, Some, slice_get, take};
ghost use Rattle.std.specs.Option.{IfSome, is_some};
ghost use Rattle.std.specs.Arc.{arc_value};
ghost use Rattle.crossbeam_queue.specs.Passes.{view, IsPassOf};
ghost use Rattle.vw_link.specs.declared.rule.View.{View};
ghost use Rattle.vw_link.specs.Ends.{HasPieceRoom, Keeps};

use crate::chain::Piece;
use crate::rule::{Line, Take, View};
use crossbeam_queue::Pass;
use std::marker::Model;
use std::sync::{Arc, Wait};
use vw_prog::{TakeEnd, Word};

/// The end of a link at which words are taken out. It knows the position up to which it has taken the script out, and nothing of
/// how far the other end is. Where it keeps its words, their room was taken when the link was laid.
#[derive(Drop)]
pub struct Receiver<R> {
    runtime: R,
    line: Arc<Line>,
    pass: Pass<Word, View>,
    link: u32,
    /// How many takes were refused.
    empty: u64,
    /// The words that were taken, where they are kept.
    kept: Option<Box<Piece>>,
}

impl<R> Model for Receiver<R> {
    ghost use Rattle.std.specs.Prelude.{◌≡◌, true};
    ghost use Rattle.std.specs.Option.{is_some};
    ghost use Rattle.std.specs.Arc.{arc_value};
    ghost use Rattle.crossbeam_queue.specs.Passes.{IsPassOf};
    ghost use Rattle.vw_prog.specs.Fabric.{SeenTakeEnd};
    ghost use Rattle.vw_link.specs.Ends.{Keeps, known};

    ghost Value = { SeenTakeEnd };

    ghost view = { λ end. record {
      link = end.link;
      words = (known end.pass).words;
      taken = (known end.pass).taken;
      empty = end.empty;
      keeps = is_some end.kept;
    } };

    ghost invariant = { λ end. IsPassOf (arc_value end.line) end.pass
        × ((known end.pass).takes ≡ true)
        × Keeps end.link (known end.pass) end.kept };
}

impl<R: Copy> Receiver<R> {
    /// The end of a link at which nothing was refused so far.
    pub(crate) fn make(
        runtime: R,
        line: Arc<Line>,
        pass: Pass<Word, View>,
        link: u32,
        kept: Option<Box<Piece>>,
    ) -> Self
        requires queue { IsPassOf (arc_value line) pass }
        requires takes { (view pass).takes ≡ true }
        requires kept { Keeps link (view pass) kept }
        ensures { result ≡ record {
          link = link;
          words = (view pass).words;
          taken = (view pass).taken;
          empty = 0;
          keeps = is_some kept;
        } }
    {
        Receiver {
            runtime,
            line,
            pass,
            link,
            empty: 0,
            kept,
        }
    }

    /// The words that were taken, where they are kept.
    pub(crate) fn into_kept(self) -> Option<Box<Piece>>
        ensures variant { is_some result ≡ self.keeps }
        ensures kept { IfSome result (λ piece. (piece.value.link ≡ self.link)
            × (piece.value.words.items ≡ take self.taken self.words)) }
    {
        let Receiver { kept, .. } = self;
        kept
    }
}

/// Puts a word that was taken behind those that were taken before, where they are kept.
fn keep(kept: &mut Option<Box<Piece>>, word: Word)
    requires { HasPieceRoom kept.old }
    ensures same { is_some kept.new ≡ is_some kept.old }
    ensures kept { (link : ℕ) (pass : View) → slice_get pass.words pass.taken ≡ Some word
        → Keeps link pass kept.old → Keeps link (record pass { taken = pass.taken + 1 }) kept.new }
{
    if let Some(piece) = kept {
        piece.words.push_reserved(word);
    }
}

impl<R: Wait + Copy + Send> TakeEnd for Receiver<R> {
    ghost seen = { λ end. end };

    fn take(&mut self) -> Option<Word> {
        match self.line.pop_as::<Take, R>(&self.runtime, &mut self.pass) {
            Some(word) => {
                keep(&mut self.kept, word);
                Some(word)
            }
            None => {
                self.empty = self.empty.saturating_add(1);
                None
            }
        }
    }
}

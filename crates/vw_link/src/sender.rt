//! The end of a link at which words are put in.
ghost use Rattle.std.specs.Prelude.{◌≡◌, true};
ghost use Rattle.std.specs.Arc.{arc_value};
ghost use Rattle.crossbeam_queue.specs.Passes.{view, IsPassOf, ruled_capacity};

use crate::rule::{Line, Put, View};
use crossbeam_queue::Pass;
use std::marker::Model;
use std::sync::{Arc, Wait};
use vw_prog::{PutEnd, Word};

/// The end of a link at which words are put in. It knows the position up to which it has put the script in, and nothing of how far
/// the other end is.
#[derive(Drop)]
pub struct Sender<R> {
    runtime: R,
    line: Arc<Line>,
    pass: Pass<Word, View>,
    link: u32,
    /// How many puts were refused.
    full: u64,
}

impl<R> Model for Sender<R> {
    ghost use Rattle.std.specs.Prelude.{◌≡◌, true};
    ghost use Rattle.std.specs.Arc.{arc_value};
    ghost use Rattle.crossbeam_queue.specs.Passes.{IsPassOf, ruled_capacity};
    ghost use Rattle.vw_prog.specs.Fabric.{SeenPutEnd};
    ghost use Rattle.vw_link.specs.Ends.{known};

    ghost Value = { SeenPutEnd };

    ghost view = { λ end. record {
      link = end.link;
      words = (known end.pass).words;
      sent = (known end.pass).sent;
      full = end.full;
      room = ruled_capacity (arc_value end.line);
    } };

    ghost invariant = { λ end. IsPassOf (arc_value end.line) end.pass
        × ((known end.pass).puts ≡ true) };
}

impl<R> Sender<R> {
    /// The end of a link at which nothing was refused so far.
    pub(crate) fn make(runtime: R, line: Arc<Line>, pass: Pass<Word, View>, link: u32) -> Self
        requires queue { IsPassOf (arc_value line) pass }
        requires puts { (view pass).puts ≡ true }
        ensures { result ≡ record {
          link = link;
          words = (view pass).words;
          sent = (view pass).sent;
          full = 0;
          room = ruled_capacity (arc_value line);
        } }
    {
        Sender {
            runtime,
            line,
            pass,
            link,
            full: 0,
        }
    }
}

impl<R: Wait + Copy + Send> PutEnd for Sender<R> {
    ghost seen = { λ end. end };

    fn put(&mut self, word: Word) -> bool {
        match self
            .line
            .push_as::<Put, R>(&self.runtime, &mut self.pass, word)
        {
            Ok(()) => true,
            Err(_) => {
                self.full = self.full.saturating_add(1);
                false
            }
        }
    }
}

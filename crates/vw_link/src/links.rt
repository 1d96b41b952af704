//! The fabric of ruled queues.
ghost use Rattle.std.specs.Prelude.{◌≡◌, ◌<◌, None, Some, [], IsTrue, IfOk, length, slice_get, if◌then◌else◌};
ghost use Rattle.std.specs.Option.{IfSome, is_some};
ghost use Rattle.vw_prog.specs.Scripts.{script};
ghost use Rattle.vw_link.specs.Chains.{carried_of};
ghost use Rattle.vw_link.specs.Ends.{Keeps};
ghost use Rattle.vw_link.specs.Rule.{taking};

use crate::chain::{Chain, Piece, word_of};
use crate::counts::script_length;
use crate::laying::laid;
use crate::receiver::Receiver;
use crate::sender::Sender;
use std::alloc::{AllocError, Global};
use std::marker::Model;
use std::mem;
use std::sync::{Arc, Wait};
use vw_prog::{Fabric, Job, Word};

/// A fabric whose links are ruled queues. A link holds 64 words for each of its pins. Where the fabric keeps words, it tells for each
/// link the words that were taken from it, over all lays that were lifted. To lay a link takes memory for the words that it holds at
/// most, and, where words are kept, for the whole script.
#[derive(Drop)]
pub struct Links<R> {
    runtime: R,
    keep: bool,
    chain: Chain,
}

impl<R> Model for Links<R> {
    ghost use Rattle.vw_link.specs.Chains.{SeenLinks, lifts_of};

    ghost Value = { SeenLinks };

    ghost view = { λ links. record { keeps = links.keep; lifts = lifts_of links.chain } };
}

impl<R> Links<R> {
    /// A fabric that has carried nothing, and keeps the words that it carries or doesn't. Its ends wait by the runtime. It takes no
    /// memory.
    pub fn new(runtime: R, keep: bool) -> Self
        ensures { carried_of result ≡ (if keep then Some (λ _. []) else None) }
    {
        Links {
            runtime,
            keep,
            chain: Chain::End,
        }
    }

    /// The word with a number, from 0, among those that a link has carried, oldest first; None where there are no more. Where no
    /// words are kept, no clause says what it gives. It takes no memory.
    pub fn carried(&self, link: u32, number: u64) -> Option<Word>
        ensures { IfSome (carried_of self.now)
            (λ carried. result ≡ slice_get (carried link) number) }
    {
        word_of(&self.chain, link, number)
    }

    /// The room for the words that a receiver takes, where they are kept.
    fn room(&self, alloc: Global, job: &Job, link: u32) -> Result<Option<Box<Piece>>, AllocError>
        requires { link < length job.now.checked.board.links }
        ensures { IfOk result (λ kept. (is_some kept ≡ self.now.keeps)
            × Keeps link (taking (script job.now link) 0) kept) }
    {
        if !self.keep {
            return Ok(None);
        }
        let piece = Piece::make(alloc, link, script_length(job, link))?;
        Ok(Some(piece))
    }
}

impl<R: Wait + Copy + Send> Fabric for Links<R> {
    type Tx = Sender<R>;

    type Rx = Receiver<R>;

    ghost use Rattle.vw_link.specs.Chains.{carried_of};

    ghost carried = { carried_of };

    fn lay(
        &mut self,
        alloc: Global,
        job: &Job,
        link: u32,
    ) -> Result<(Sender<R>, Receiver<R>), AllocError> {
        let kept = self.room(alloc, job, link)?;
        let (line, sender, receiver) = laid(alloc, job, link)?;
        let other = Arc::try_clone(&line)?;
        Ok((
            Sender::make(self.runtime, line, sender, link),
            Receiver::make(self.runtime, other, receiver, link, kept),
        ))
    }

    fn lift(&mut self, link: u32, tx: Sender<R>, rx: Receiver<R>) {
        let _ = tx;
        if !self.keep {
            return;
        }
        if let Some(mut piece) = rx.into_kept() {
            piece.older = mem::replace(&mut self.chain, Chain::End);
            self.chain = Chain::Hung(piece);
        }
    }
}

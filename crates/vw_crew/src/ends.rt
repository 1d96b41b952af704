//! The ends of the links of a node.
ghost use Rattle.std.specs.Prelude.{◌≡◌, option_map, slice_set, replicate, None, IfOk};
ghost use Rattle.vw_crew.specs.Ends.{Has, MayHave};
ghost use Rattle.vw_crew.specs.Groups.{IsOwnOf};

use std::alloc::{AllocError, Global};
use std::marker::Model;
use std::mem::replace;
use std::snapshot::Snapshot;
use vw_prog::{Ends, Job, PutEnd, TakeEnd, Word};

/// The ends of the links of a node, each at the number of its link. A board has so few links that each node has a place for
/// each of them, so a word finds its end without a search.
#[derive(Drop)]
pub struct NodeEnds<T: PutEnd, U: TakeEnd> {
    /// The job, which clauses see and the code doesn't.
    job: Snapshot<Job>,
    node: u32,
    /// Where words are put in, for links that leave the node.
    puts: Vec<Option<T>>,
    /// Where words are taken out, for links that reach it.
    takes: Vec<Option<U>>,
}

impl<T: PutEnd, U: TakeEnd> Model for NodeEnds<T, U> {
    ghost use Rattle.vw_crew.specs.Ends.{AreOwn, SeenOwn, own_of};

    ghost Value = { SeenOwn };

    ghost view = { λ ends. own_of T.seen U.seen ends.job.value ends.node ends.puts.items ends.takes.items };

    ghost invariant = { λ ends. AreOwn (own_of T.seen U.seen ends.job.value ends.node ends.puts.items
        ends.takes.items) };
}

/// So many places without ends.
fn no_ends<E: Drop>(alloc: Global, count: usize) -> Result<Vec<Option<E>>, AllocError>
    ensures { IfOk result (λ places. places.items ≡ replicate count None) }
{
    let mut places = Vec::with_capacity(alloc, count)?;
    for _ in 0..count {
        places.push(None)?;
    }
    Ok(places)
}

impl<T: PutEnd, U: TakeEnd> NodeEnds<T, U> {
    /// No ends yet, for a node of a job. It takes memory for a place for each link.
    pub fn make(alloc: Global, job: &Job, node: u32) -> Result<Self, AllocError>
        ensures { IfOk result (IsOwnOf job.now node) }
    {
        let links = job.checked().board().links().len();
        let puts = no_ends(alloc, links)?;
        let takes = no_ends(alloc, links)?;
        Ok(NodeEnds {
            job: Snapshot::of(job),
            node,
            puts,
            takes,
        })
    }

    /// Gives the node other ends of a link, or none. Gives those that it had.
    pub fn change(&mut self, link: u32, put: Option<T>, take: Option<U>) -> (Option<T>, Option<U>)
        requires { MayHave self.old link (option_map T.seen put) (option_map U.seen take) }
        ensures had { Has self.old link (option_map T.seen result.0) (option_map U.seen result.1) }
        ensures now { self.new ≡ record self.old {
          puts = slice_set self.old.puts link (option_map T.seen put);
          takes = slice_set self.old.takes link (option_map U.seen take);
        } }
    {
        let put_was = replace(&mut self.puts[link as usize], put);
        let take_was = replace(&mut self.takes[link as usize], take);
        (put_was, take_was)
    }
}

impl<T: PutEnd, U: TakeEnd> Ends for NodeEnds<T, U> {
    ghost use Rattle.vw_crew.specs.Ends.{ends_of};

    ghost seen = { ends_of };

    fn put(&mut self, link: u32, word: Word) -> bool {
        match &mut self.puts[link as usize] {
            Some(end) => end.put(word),
            None => unreachable!(),
        }
    }

    fn take(&mut self, link: u32) -> Option<Word> {
        match &mut self.takes[link as usize] {
            Some(end) => end.take(),
            None => unreachable!(),
        }
    }
}

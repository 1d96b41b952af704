ghost use Rattle.std.specs.Prelude.{◌≡◌, ◌<◌, length, IfOk};
ghost use Rattle.vw_world.specs.Lanes.{AreLanes, fresh_lanes, lane_at};

use crate::lane::Lane;
use std::alloc::{AllocError, Global};
use std::marker::Model;
use vw_prog::{Ends, Job, Word};

/// The links of a world. At each time they are the ends of the links of one node.
pub struct Lanes<'a> {
    job: &'a Job,
    node: u32,
    lanes: Vec<Lane>,
}

impl Drop for Lanes<'_> {
    fn drop(self) {
        let Lanes {
            job: _,
            node: _,
            lanes: _,
        } = self;
    }
}

impl<'a> Model for Lanes<'a> {
    ghost use Rattle.vw_world.specs.Lanes.{AreLanes, SeenLanes};

    ghost Value = { SeenLanes };

    ghost view = { λ all. record { job = all.job.now; node = all.node; lanes = all.lanes.items } };

    ghost invariant = { λ all. AreLanes (record {
      job = all.job.now;
      node = all.node;
      lanes = all.lanes.items;
    }) };
}

impl<'a> Lanes<'a> {
    /// The links of a board, with no words on them. It takes the memory for the words that they hold at most.
    pub fn make(alloc: Global, job: &'a Job) -> Result<Self, AllocError>
        ensures { IfOk result (λ all. all ≡ fresh_lanes job.now) }
    {
        let links = job.checked().board().links();
        let mut lanes = Vec::with_capacity(alloc, links.len())?;
        for link in links {
            lanes.push(Lane::make(alloc, link.width() * link.delay())?)?;
        }
        Ok(Lanes {
            job,
            node: 0,
            lanes,
        })
    }

    /// How many links there are.
    pub fn len(&self) -> usize
        ensures { result ≡ length self.now.lanes }
    {
        self.lanes.len()
    }

    /// How many words are on a link.
    pub fn held(&self, link: u32) -> u32
        requires { link < length self.now.lanes }
        ensures { result ≡ length (lane_at self.now.lanes link).words }
    {
        self.lanes[link as usize].held()
    }

    /// The links are the ends of this node from now on.
    pub fn turn_to(&mut self, node: u32)
        ensures { self.new ≡ record self.old { node = node } }
    {
        self.node = node;
    }

    /// What the links keep at all times.
    pub fn carry_scripts(&self)
        ensures { AreLanes self.now }
    {
        let _ = &self.job;
    }
}

impl<'a> Ends for Lanes<'a> {
    ghost use Rattle.vw_world.specs.Lanes.{ends_of};

    ghost seen = { ends_of };

    fn put(&mut self, link: u32, word: Word) -> bool {
        self.lanes[link as usize].put(word)
    }

    fn take(&mut self, link: u32) -> Option<Word> {
        self.lanes[link as usize].take()
    }
}

ghost use Rattle.std.specs.Prelude.{◌≡◌, ◌<◌, ℕ, List, length, IfOk};
ghost use Rattle.vw_net.specs.History.{outputs_of, state_after, states_of};
ghost use Rattle.vw_prog.specs.Actions.{ArePrograms};
ghost use Rattle.vw_prog.specs.Scripts.{planned_of};
ghost use Rattle.vw_world.specs.Kept.{IsKept};
ghost use Rattle.vw_world.specs.Seen.{AreAllDone, start_of};
ghost use Rattle.vw_world.specs.Worlds.{node_at, played, words_at};

use crate::board::{finish, play};
use crate::lanes::Lanes;
use crate::making::first_nodes;
use std::alloc::{AllocError, Global};
use std::marker::Model;
use vw_answer::{Room, answer_of};
use vw_node::Node;
use vw_prog::{Answer, Job, Programs};

/// The nodes of a board in a job, and the words on its links. It borrows the job and the programs. Contracts see the job, the
/// states of the nodes, and the words on the links.
pub struct World<'a> {
    job: &'a Job,
    nodes: Vec<Node<'a>>,
    lanes: Lanes<'a>,
    /// Room for the latch values of its answer.
    room: Room,
}

impl Drop for World<'_> {
    fn drop(self) {
        let World {
            job: _,
            nodes: _,
            lanes: _,
            room: _,
        } = self;
    }
}

impl<'a> Model for World<'a> {
    ghost use Rattle.vw_answer.specs.Answers.{HasTold};
    ghost use Rattle.vw_world.specs.Boards.{IsBoard, world_of};
    ghost use Rattle.vw_world.specs.Seen.{SeenWorld};

    ghost Value = { SeenWorld };

    ghost view = { λ world. record {
      job = world.job.now;
      state = world_of world.nodes.items world.lanes;
    } };

    ghost invariant = { λ world. IsBoard world.job.now world.nodes.items world.lanes
        × HasTold world.job.now 1 world.room };
}

impl<'a> World<'a> {
    /// The world of a job at the start, of which these are the programs. It takes the memory for the nodes and all that they will
    /// record, for the words that the links hold at most, and for the answer.
    pub fn make(alloc: Global, programs: &'a Programs, job: &'a Job) -> Result<Self, AllocError>
        requires { ArePrograms (planned_of job.now) programs.now }
        ensures { IfOk result (λ world. world ≡ start_of job.now) }
    {
        let nodes = first_nodes(alloc, programs, job)?;
        let lanes = Lanes::make(alloc, job)?;
        let room = Room::make(alloc, job)?;
        Ok(World {
            job,
            nodes,
            lanes,
            room,
        })
    }

    /// Each event is a number: the node with that number makes its next action, where it has one and its link doesn't refuse it.
    /// A number that is no node's does nothing. It takes no memory.
    pub fn play(&mut self, events: &[u32])
        ensures job { self.new.job ≡ self.old.job }
        ensures state { self.new.state ≡ played self.old.job self.old.state events.now }
    {
        play(&mut self.nodes, &mut self.lanes, events);
    }

    /// Makes all actions that are left, of all clocks, by rounds over the nodes. There are at most as many rounds as actions. It
    /// takes no memory.
    pub fn finish(&mut self)
        ensures job { self.new.job ≡ self.old.job }
        ensures leads { (events : List ℕ)
            × (self.new.state ≡ played self.old.job self.old.state events) }
        ensures done { AreAllDone self.new }
    {
        let clocks = self.job.share(0).clocks;
        finish(&mut self.nodes, &mut self.lanes, clocks);
    }

    /// What the job came to: the outputs and the latch values of each clock, and the latch values after the last. It takes no
    /// memory.
    pub fn into_answer(self) -> Answer
        requires { AreAllDone self }
        ensures outputs { result.outputs ≡ outputs_of self.entry.job.checked.ordered.flat
            self.entry.job.start self.entry.job.rows }
        ensures latches { result.latches ≡ states_of self.entry.job.checked.ordered.flat
            self.entry.job.start self.entry.job.rows }
        ensures last { result.last ≡ state_after self.entry.job.checked.ordered.flat
            self.entry.job.start self.entry.job.rows }
    {
        let World {
            job,
            nodes,
            lanes: _,
            room,
        } = self;
        answer_of(job, nodes, room)
    }

    /// How many nodes there are: the host and each chip. It takes no memory.
    pub fn nodes(&self) -> usize
        ensures { result ≡ length self.now.state.nodes }
    {
        self.nodes.len()
    }

    /// How many links there are. It takes no memory.
    pub fn links(&self) -> usize
        ensures { result ≡ length self.now.state.links }
    {
        self.lanes.len()
    }

    /// How many clocks a node has finished. It takes no memory.
    pub fn clock(&self, node: u32) -> u64
        requires { node < length self.now.state.nodes }
        ensures { result ≡ (node_at self.now.state node).clock }
    {
        self.nodes[node as usize].clock
    }

    /// How many actions of the present clock a node has made. It takes no memory.
    pub fn made(&self, node: u32) -> u64
        requires { node < length self.now.state.nodes }
        ensures { result ≡ (node_at self.now.state node).made }
    {
        self.nodes[node as usize].made
    }

    /// How many words are on a link. It takes no memory.
    pub fn held(&self, link: u32) -> u32
        requires { link < length self.now.state.links }
        ensures { result ≡ length (words_at self.now.state link) }
    {
        self.lanes.held(link)
    }

    /// What a world keeps over every order of events.
    pub fn is_kept(&self)
        ensures { IsKept self.now.job self.now.state }
    {
        let _ = &self.job;
    }
}

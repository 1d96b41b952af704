ghost use Rattle.std.specs.Prelude.{◌≡◌, ◌≤◌, ◌<◌, ℕ, length, slice_get, Some, IfOk};
ghost use Rattle.std.specs.Borrow.{sem};
ghost use Rattle.std.specs.Bool.{OnFalse, OnTrue};
ghost use Rattle.vw_prog.specs.Actions.{ArePrograms};
ghost use Rattle.vw_prog.specs.Scripts.{planned_of};
ghost use Rattle.vw_node.specs.declared.node.Node.{Node};
ghost use Rattle.vw_crew.specs.Groups.{AreAtWork, IsFirstGroup, Stays};
ghost use Rattle.vw_crew.specs.Lending.{LendsEnds};

use crate::ends::NodeEnds;
use std::alloc::{AllocError, Global};
use std::marker::Model;
use vw_node::Node;
use vw_prog::{Job, Programs, PutEnd, TakeEnd};

/// Some nodes of a crew, each with the ends of its links. Of so many groups the one with a number has the nodes whose numbers
/// have that rest, in order: the node at a place has the number `place * groups + number`.
#[derive(Drop)]
pub struct Group<'a, T: PutEnd, U: TakeEnd> {
    number: u32,
    nodes: Vec<Node<'a>>,
    ends: Vec<NodeEnds<T, U>>,
}

/// How many actions a node has made from the start, up to a multiple of 2^64.
fn position(node: &Node<'_>) -> u64 {
    let whole = node.clock.wrapping_mul(node.code.ops.len() as u64);
    whole.wrapping_add(node.made)
}

impl<'a, T: PutEnd, U: TakeEnd> Model for Group<'a, T, U> {
    ghost use Rattle.std.specs.Prelude.{◌≡◌, length};
    ghost use Rattle.vw_crew.specs.Groups.{SeenGroup};

    ghost Value = { SeenGroup };

    ghost view = { λ group. record {
      number = group.number;
      nodes = group.nodes.items;
      ends = group.ends.items;
    } };

    ghost invariant = { λ group. length group.nodes.items ≡ length group.ends.items };
}

impl<'a, T: PutEnd, U: TakeEnd> Group<'a, T, U> {
    /// The group with a number, before any action of its nodes, and without ends. It takes the memory of its nodes.
    pub fn make(
        alloc: Global,
        programs: &'a Programs,
        job: &'a Job,
        number: u32,
        groups: u32,
    ) -> Result<Self, AllocError>
        requires programs { ArePrograms (planned_of job.now) programs.now }
        requires number { number < groups }
        requires few { groups ≤ 64 }
        ensures { IfOk result (IsFirstGroup job.now groups number) }
    {
        let all = job.checked().board().chips() + 1;
        let mut nodes = Vec::new(alloc);
        let mut ends = Vec::new(alloc);
        let mut node = number;
        while node < all {
            nodes.push(Node::make(alloc, programs, job.share(node))?)?;
            ends.push(NodeEnds::make(alloc, job, node)?)?;
            node += groups;
        }
        Ok(Group {
            number,
            nodes,
            ends,
        })
    }

    /// The number of the group.
    pub fn number(&self) -> u32
        ensures { result ≡ self.now.number }
    {
        self.number
    }

    /// The node at a place.
    pub fn node(&self, place: usize) -> &Node<'a>
        requires { place < length self.now.nodes }
        ensures { slice_get self.now.nodes place ≡ Some result.now }
    {
        &self.nodes[place]
    }

    /// The first node, given up.
    pub fn into_first(self) -> Node<'a>
        requires { 0 < length self.nodes }
        ensures { slice_get self.entry.nodes 0 ≡ Some result }
    {
        let Group { mut nodes, .. } = self;
        nodes.swap_remove(0)
    }

    /// Whether the nodes have finished so many clocks.
    pub fn is_done(&self, clocks: u64) -> bool
        ensures done { OnTrue result ((place : ℕ) (node : Node)
            → slice_get self.now.nodes place ≡ Some node → node.clock ≡ clocks) }
        ensures rest { OnFalse result ((place : ℕ) × ((node : Node)
            × ((slice_get self.now.nodes place ≡ Some node) × (node.clock ≡ clocks → ⊥)))) }
    {
        for node in &self.nodes {
            if node.clock != clocks {
                return false;
            }
        }
        true
    }

    /// The ends of the node at a place.
    pub fn ends_at(&mut self, place: usize) -> &mut NodeEnds<T, U>
        requires { place < length self.old.ends }
        ensures* lends { sem 𝓛 (LendsEnds T.row U.row T.PutEnd U.TakeEnd self.entry place result) }
        ensures value { slice_get self.entry.now.ends place ≡ Some result.now }
    {
        &mut self.ends[place]
    }

    /// The node at a place goes on until it is refused or done. Says how many actions it made.
    fn go(&mut self, place: usize) -> u64
        requires work { AreAtWork self.old }
        requires place { place < length self.old.nodes }
        ensures work { AreAtWork self.new }
        ensures stays { Stays self.old self.new }
    {
        let node = &mut self.nodes[place];
        let before = position(node);
        let _ = node.go(&mut self.ends[place]);
        position(node).wrapping_sub(before)
    }

    /// Each node goes on until it is refused or done, one after the other. Says how many actions they made. It takes no memory.
    pub fn turn(&mut self) -> u64
        requires { AreAtWork self.old }
        ensures work { AreAtWork self.new }
        ensures stays { Stays self.old self.new }
    {
        let mut made = 0u64;
        for place in 0..self.nodes.len() {
            made = made.wrapping_add(self.go(place));
        }
        made
    }
}

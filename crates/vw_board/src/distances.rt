ghost use Rattle.std.specs.Prelude.{◌≡◌, ◌≢◌, ◌≤◌, ◌<◌, ◌+◌, length, IfOk, IfNone, IfSome, IsSome};
ghost use Rattle.std.specs.List.{All};
ghost use Rattle.vw_plan.specs.Distance.{distance};
ghost use Rattle.vw_plan.specs.declared.board.Board.{Board};
ghost use Rattle.vw_board.specs.FirstStep.{IsFirstStep};
ghost use Rattle.vw_board.specs.Steps.Tables.{HaveLeast, AreDistances, AreFirstSteps};
ghost use Rattle.vw_board.specs.Steps.Nearer.{HasNoneNearer, IsFirstNearer};

use crate::link_lines::has_link;
use crate::walks::least_links;
use std::alloc::{AllocError, Global};
use std::marker::Model;
use std::snapshot::Snapshot;
use vw_net::Sequence;
use vw_plan::{Board, Link};

/// How far the nodes of a board are from each other. Contracts see it as the board.
pub struct Distances {
    board: Snapshot<Board>,
    /// For each node that is led to, the distance of each node.
    distances: Sequence<Sequence<u32>>,
    /// For each node that is led to, the first step from each other node.
    steps: Sequence<Sequence<u32>>,
}

impl Drop for Distances {
    fn drop(self) {
        let Distances {
            board: _,
            distances: _,
            steps: _,
        } = self;
    }
}

impl Model for Distances {
    ghost use Rattle.vw_plan.specs.declared.board.Board.{Board};

    ghost Value = { Board };

    ghost use Rattle.vw_board.specs.Steps.Tables.{AreDistanceTables};

    ghost view = { λ d. d.board.value };

    ghost invariant = { λ d. AreDistanceTables d.board.value d.distances d.steps };
}

/// The first node to which a link leads from a node and whose distance is one less.
fn first_nearer(links: &[Link], distances: &[u32], from: u32) -> Option<u32>
    requires from { from < length distances.now }
    requires few { length distances.now ≤ 33 }
    requires near { All (λ distance. distance ≤ 33) distances.now }
    ensures none { IfNone result (HasNoneNearer links.now distances.now from
        (length distances.now)) }
    ensures first { IfSome result (IsFirstNearer links.now distances.now from) }
{
    for (node, distance) in distances.iter().enumerate() {
        if *distance + 1 == distances[from as usize] && has_link(links, from, node as u32) {
            return Some(node as u32);
        }
    }
    None
}

/// The first step from a node to another; the node itself where they are one.
fn step_to(board: &Board, distances: &[u32], from: u32, to: u32) -> u32
    requires from { from ≤ board.now.chips }
    requires to { to ≤ board.now.chips }
    requires distances { AreDistances board.now to distances.now }
    ensures { from ≢ to → IsFirstStep board.now from to result }
{
    if from == to {
        return to;
    }
    first_nearer(board.links(), distances, from).unwrap()
}

/// The first step from each node to a node.
fn steps_to(
    alloc: Global,
    board: &Board,
    distances: &[u32],
    to: u32,
) -> Result<Vec<u32>, AllocError>
    requires to { to ≤ board.now.chips }
    requires distances { AreDistances board.now to distances.now }
    ensures { IfOk result (λ steps. AreFirstSteps board.now to steps.items) }
{
    let mut steps = Vec::new(alloc);
    for from in 0..board.chips() + 1 {
        steps.push(step_to(board, distances, from, to))?;
    }
    Ok(steps)
}

/// The distance of each node to a node: on a board each node has a walk to each other.
fn distances_to(
    alloc: Global,
    board: &Board,
    least: &[Option<u32>],
    to: u32,
) -> Result<Vec<u32>, AllocError>
    requires to { to ≤ board.now.chips }
    requires least { HaveLeast board.now.links (board.now.chips + 1) (board.now.chips + 1) to
        least.now }
    ensures { IfOk result (λ distances. AreDistances board.now to distances.items) }
{
    let _chips = board.chips();
    let mut distances = Vec::new(alloc);
    for links in least {
        distances.push(links.unwrap())?;
    }
    Ok(distances)
}

impl Distances {
    /// The distances of a board.
    pub fn of(alloc: Global, board: &Board) -> Result<Self, AllocError>
        ensures { IfOk result (λ distances. distances ≡ board.now) }
    {
        let least = least_links(alloc, board.chips(), board.links())?;
        let mut distances = Vec::new(alloc);
        let mut steps = Vec::new(alloc);
        for to in 0..board.chips() + 1 {
            let near = distances_to(alloc, board, least[to as usize].as_slice(), to)?;
            steps.push(Sequence::of(steps_to(alloc, board, &near, to)?))?;
            distances.push(Sequence::of(near))?;
        }
        Ok(Distances {
            board: Snapshot::of(board),
            distances: Sequence::of(distances),
            steps: Sequence::of(steps),
        })
    }

    /// The least number of links of a walk from a node to another. It takes no memory.
    pub fn distance(&self, a: u32, b: u32) -> u32
        requires from { a ≤ self.now.chips }
        requires to { b ≤ self.now.chips }
        ensures { result ≡ distance self.now a b }
    {
        self.distances.as_slice()[b as usize].as_slice()[a as usize]
    }

    /// The least node to which a link leads from a node, and from which another node is one link nearer. It takes no
    /// memory.
    pub fn first_step(&self, a: u32, b: u32) -> u32
        requires from { a ≤ self.now.chips }
        requires to { b ≤ self.now.chips }
        requires apart { a ≢ b }
        ensures { IsFirstStep self.now a b result }
    {
        self.steps.as_slice()[b as usize].as_slice()[a as usize]
    }
}

//! Walks that spread over the links of a board. In the field: routing by congestion, with rip-up and reroute. They are wishes:
//! no contract rests on them.
ghost use Rattle.std.specs.Prelude.{◌≡◌};

use std::alloc::{AllocError, Global};
use vw_board::Distances;
use vw_net::Sequence;
use vw_plan::{Board, Link};

/// What a walk costs: less delay comes first, then a less full fullest link, then less load over all links.
#[derive(Clone, Copy, PartialEq, Eq, PartialOrd, Ord)]
struct Cost {
    /// The delays of its links, in microcycles.
    delay: u64,
    /// The load of its fullest link.
    fullest: u64,
    /// The squares of the loads of its links.
    squares: u64,
}

/// No cost.
fn nothing() -> Cost {
    Cost {
        delay: 0,
        fullest: 0,
        squares: 0,
    }
}

/// A number of a list; 0 past its end.
fn number_at(list: &[u32], place: usize) -> u32 {
    list.get(place).copied().unwrap_or(0)
}

/// The links of a board with the walks that go over them so far.
struct Traffic<'a> {
    links: &'a [Link],
    /// How many nodes there are.
    nodes: u32,
    /// The distance of each two nodes.
    distances: Vec<u32>,
    /// One more than the number of the link between each two nodes; 0 where there is none.
    between: Vec<u32>,
    /// How many walks go over each link.
    walks: Vec<u64>,
}

impl Drop for Traffic<'_> {
    fn drop(self) {
        let Traffic {
            links: _,
            nodes: _,
            distances: _,
            between: _,
            walks: _,
        } = self;
    }
}

/// The distance of each two nodes.
fn all_distances(
    alloc: Global,
    board: &Board,
    distances: &Distances,
) -> Result<Vec<u32>, AllocError>
    requires { distances.now ≡ board.now }
{
    let mut all = Vec::new(alloc);
    for from in 0..board.chips() + 1 {
        for to in 0..board.chips() + 1 {
            all.push(distances.distance(from, to))?;
        }
    }
    Ok(all)
}

impl<'a> Traffic<'a> {
    /// A board that no walk goes over yet.
    fn new(alloc: Global, board: &'a Board, distances: &Distances) -> Result<Self, AllocError>
        requires { distances.now ≡ board.now }
    {
        let nodes = board.chips() + 1;
        let links = board.links();
        let distances = all_distances(alloc, board, distances)?;
        let mut between = vec![in alloc; 0; distances.len()]?;
        let mut number: u32 = 0;
        for link in links {
            number = number.saturating_add(1);
            let place = link.from() as usize * nodes as usize + link.to() as usize;
            if let Some(entry) = between.get_mut(place) {
                *entry = number;
            }
        }
        let walks = vec![in alloc; 0; links.len()]?;
        Ok(Traffic {
            links,
            nodes,
            distances,
            between,
            walks,
        })
    }

    /// The place of two nodes.
    fn place(&self, from: u32, to: u32) -> usize {
        (from as usize)
            .saturating_mul(self.nodes as usize)
            .saturating_add(to as usize)
    }

    /// The distance of two nodes.
    fn distance(&self, from: u32, to: u32) -> u32 {
        number_at(&self.distances, self.place(from, to))
    }

    /// The number of the link from one node to another.
    fn link(&self, from: u32, to: u32) -> Option<usize> {
        (number_at(&self.between, self.place(from, to)) as usize).checked_sub(1)
    }

    /// Whether a node is on a walk of the least number of links.
    fn is_between(&self, node: u32, from: u32, to: u32) -> bool {
        let way = self
            .distance(from, node)
            .saturating_add(self.distance(node, to));
        way == self.distance(from, to)
    }

    /// Says that one walk more, or one less, goes over the links from each node to the next.
    fn count(&mut self, nodes: &[u32], more: bool) {
        for place in 1..nodes.len() {
            if let Some(link) = self.link(number_at(nodes, place - 1), number_at(nodes, place)) {
                if let Some(walks) = self.walks.get_mut(link) {
                    *walks = if more {
                        walks.saturating_add(1)
                    } else {
                        walks.saturating_sub(1)
                    };
                }
            }
        }
    }

    /// What a walk costs that goes over a link first, and then on at a cost: a load is a number of walks by the pins.
    fn cost_over(&self, number: usize, rest: Cost) -> Option<Cost> {
        let link = self.links.get(number)?;
        let walks = self
            .walks
            .get(number)
            .copied()
            .unwrap_or(0)
            .saturating_add(1);
        let load = walks
            .saturating_mul(1024)
            .checked_div(u64::from(link.width()))
            .unwrap_or(0);
        Some(Cost {
            delay: rest.delay.saturating_add(u64::from(link.delay())),
            fullest: rest.fullest.max(load),
            squares: rest.squares.saturating_add(load.saturating_mul(load)),
        })
    }

    /// The best step from a node on towards another one, by what the nodes cost that are nearer.
    fn best_step(&self, costs: &[Cost], node: u32, to: u32) -> Option<(Cost, u32)> {
        let near = self.distance(node, to);
        let mut best: Option<(Cost, u32)> = None;
        for next in 0..self.nodes {
            if self.distance(next, to).saturating_add(1) != near {
                continue;
            }
            if let Some(link) = self.link(node, next) {
                let rest = costs.get(next as usize).copied().unwrap_or(nothing());
                if let Some(cost) = self.cost_over(link, rest) {
                    let is_better = match best {
                        Some((least, _)) => cost < least,
                        None => true,
                    };
                    if is_better {
                        best = Some((cost, next));
                    }
                }
            }
        }
        best
    }

    /// The nodes of the best walk from one node to another, both included.
    fn best_walk(&self, alloc: Global, from: u32, to: u32) -> Result<Vec<u32>, AllocError> {
        let mut costs = vec![in alloc; nothing(); self.nodes as usize]?;
        let mut steps = vec![in alloc; to; self.nodes as usize]?;
        let far = self.distance(from, to);
        for near in 1..far.saturating_add(1) {
            for node in 0..self.nodes {
                if self.distance(node, to) == near && self.is_between(node, from, to) {
                    if let Some((cost, next)) = self.best_step(&costs, node, to) {
                        if let Some(entry) = costs.get_mut(node as usize) {
                            *entry = cost;
                        }
                        if let Some(entry) = steps.get_mut(node as usize) {
                            *entry = next;
                        }
                    }
                }
            }
        }
        let mut nodes = Vec::with_capacity(alloc, far as usize + 1)?;
        nodes.push(from)?;
        let mut node = from;
        for _ in 0..far {
            node = number_at(&steps, node as usize);
            nodes.push(node)?;
        }
        Ok(nodes)
    }
}

/// How often each walk is chosen: the second time it knows all others.
const TIMES: u32 = 2;

/// For each two nodes the nodes of a walk from one to the other, both included, with the least number of links, and of these
/// one of the least delay that goes where few others go. The work of a walk grows with the nodes between its ends, times all
/// nodes.
pub fn spread_walks(
    alloc: Global,
    board: &Board,
    distances: &Distances,
    ends: &[(u32, u32)],
) -> Result<Vec<Sequence<u32>>, AllocError>
    requires { distances.now ≡ board.now }
{
    let mut traffic = Traffic::new(alloc, board, distances)?;
    let mut walks = Vec::with_capacity(alloc, ends.len())?;
    for _ in 0..ends.len() {
        walks.push(Sequence::of(Vec::new(alloc)))?;
    }
    for _ in 0..TIMES {
        for (number, (from, to)) in ends.iter().enumerate() {
            if let Some(walk) = walks.get_mut(number) {
                traffic.count(walk.as_slice(), false);
                *walk = Sequence::of(traffic.best_walk(alloc, *from, *to)?);
                traffic.count(walk.as_slice(), true);
            }
        }
    }
    Ok(walks)
}

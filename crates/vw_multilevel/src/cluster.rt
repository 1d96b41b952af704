//! Clusters of vertices that share nets.
use crate::level::Level;
use crate::numbers::NumberList;
use std::alloc::{AllocError, Global};

/// How much two vertices are drawn to each other by a net of so many.
pub fn pull(size: usize) -> u32 {
    let others = u32::try_from(size).unwrap_or(u32::MAX).saturating_sub(1);
    if others == 0 {
        return 0;
    }
    (2520 / others).max(1)
}

/// Which clusters are made.
#[derive(Clone, Copy)]
pub struct Limits {
    /// The most cells of a cluster.
    pub most: u32,
    /// Whether a vertex waits for a cluster that it belongs to more than to all others. Parts of a design that belong
    /// together then fill up before they meet others.
    pub choosy: bool,
    /// In which order the vertices are looked at, as a number.
    pub order: u32,
    /// The most vertices of a net that a vertex looks at.
    pub window: u32,
}

/// The clusters so far, each named by one of its vertices.
#[derive(Drop)]
struct Clusters<'a> {
    /// The chip of each vertex; only vertices of one chip share a cluster. Without any, all are of one chip.
    chip_of: &'a NumberList,
    /// The cluster of each vertex.
    of: NumberList,
    /// How many cells each cluster stands for.
    weights: NumberList,
    /// How much the vertex that is looked at is drawn to each cluster.
    scores: NumberList,
    /// The clusters with a score.
    seen: Vec<u32>,
    /// The last vertex that found no cluster.
    lonely: Option<u32>,
}

impl<'a> Clusters<'a> {
    /// Each vertex alone.
    fn of(alloc: Global, level: &Level, chip_of: &'a NumberList) -> Result<Self, AllocError> {
        let vertices = level.vertices();
        let mut weights = NumberList::zeros(alloc, vertices)?;
        for vertex in 0..vertices {
            weights.set(vertex, level.weights.at(vertex));
        }
        Ok(Clusters {
            chip_of,
            of: NumberList::below(alloc, vertices)?,
            weights,
            scores: NumberList::zeros(alloc, vertices)?,
            seen: Vec::new(alloc),
            lonely: None,
        })
    }

    /// Whether a vertex is alone.
    fn is_alone(&self, level: &Level, vertex: u32) -> bool {
        self.of.at(vertex) == vertex && self.weights.at(vertex) == level.weights.at(vertex)
    }

    /// Whether two vertices are of one chip.
    fn share_chip(&self, one: u32, other: u32) -> bool {
        self.chip_of.at(one) == self.chip_of.at(other)
    }

    /// Adds the scores that a net gives; of a great net so many vertices, which differ from vertex to vertex.
    fn score(&mut self, net: &[u32], vertex: u32, window: u32) -> Result<(), AllocError> {
        let size = u32::try_from(net.len()).unwrap_or(u32::MAX);
        let amount = pull(net.len());
        for step in 0..size.min(window) {
            let place = vertex.wrapping_add(step).checked_rem(size).unwrap_or(0);
            if let Some(other) = net.get(place as usize) {
                if !self.share_chip(*other, vertex) {
                    continue;
                }
                let cluster = self.of.at(*other);
                if self.scores.at(cluster) == 0 {
                    self.seen.push(cluster)?;
                }
                self.scores.add(cluster, amount);
            }
        }
        Ok(())
    }

    /// The cluster that draws a vertex most for its weight, among those that have room. A choosy vertex wants one that draws
    /// it as much as all others together. The scores are cleared.
    fn take_best(&mut self, vertex: u32, limits: Limits) -> Option<u32> {
        let own = self.weights.at(vertex);
        let mut best = None;
        let mut best_score = 0;
        let mut best_draw: u64 = 0;
        let mut draws: u64 = 0;
        for cluster in self.seen.as_slice() {
            let draw = u64::from(self.scores.at(*cluster));
            self.scores.set(*cluster, 0);
            if *cluster == vertex {
                continue;
            }
            draws = draws.saturating_add(draw);
            let weight = self.weights.at(*cluster);
            let score = (draw * 64).checked_div(u64::from(weight)).unwrap_or(0);
            if weight.saturating_add(own) <= limits.most && score > best_score {
                best = Some(*cluster);
                best_score = score;
                best_draw = draw;
            }
        }
        self.seen.clear();
        if limits.choosy && best_draw.saturating_mul(2) < draws {
            return None;
        }
        best
    }

    /// The last vertex that found no cluster, where it is still alone and has room; the vertex becomes the last one else.
    fn take_lonely(&mut self, level: &Level, vertex: u32, most: u32) -> Option<u32> {
        if let Some(other) = self.lonely {
            let both = self
                .weights
                .at(other)
                .saturating_add(self.weights.at(vertex));
            let may_join = other != vertex && self.share_chip(other, vertex);
            if self.is_alone(level, other) && may_join && both <= most {
                self.lonely = None;
                return Some(other);
            }
        }
        self.lonely = Some(vertex);
        None
    }

    /// Puts a vertex that is alone into a cluster, where one is found.
    fn place(&mut self, level: &Level, vertex: u32, limits: Limits) -> Result<(), AllocError> {
        if !self.is_alone(level, vertex) {
            return Ok(());
        }
        let nets = level.of_vertex.row(vertex);
        for net in nets {
            self.score(level.of_net.row(*net), vertex, limits.window)?;
        }
        let mut found = self.take_best(vertex, limits);
        if found.is_none() && (nets.is_empty() || !limits.choosy) {
            found = self.take_lonely(level, vertex, limits.most);
        }
        if let Some(cluster) = found {
            self.of.set(vertex, cluster);
            self.weights.add(cluster, level.weights.at(vertex));
        }
        Ok(())
    }
}

/// A vertex by its place in an order; the orders have numbers.
fn nth(place: u32, order: u32, vertices: u32) -> u32 {
    let step: u64 = match order {
        0 => 1,
        1 => 7919,
        2 => 7907,
        _ => 7901,
    };
    let many = u64::from(vertices);
    if many.checked_rem(step) == Some(0) {
        return place;
    }
    let product = u64::from(place) * step;
    let number = product.checked_rem(many).unwrap_or(0);
    u32::try_from(number).unwrap_or(0)
}

/// The number of each vertex's cluster, given the vertex that names it, and how many clusters there are.
fn numbered_clusters(alloc: Global, of: &NumberList) -> Result<(NumberList, u32), AllocError> {
    let mut numbers = NumberList::zeros(alloc, of.len())?;
    let mut many: u32 = 0;
    for vertex in 0..of.len() {
        if of.at(vertex) == vertex {
            numbers.set(vertex, many);
            many = many.saturating_add(1);
        }
    }
    let mut map = NumberList::zeros(alloc, of.len())?;
    for vertex in 0..of.len() {
        map.set(vertex, numbers.at(of.at(vertex)));
    }
    Ok((map, many))
}

/// The cluster of each vertex by its number, and how many clusters there are. None weighs more than it may unless a vertex
/// does, and none is of two chips, given the chip of each vertex, or an empty list where that doesn't matter.
pub fn clustered(
    alloc: Global,
    level: &Level,
    chip_of: &NumberList,
    limits: Limits,
) -> Result<(NumberList, u32), AllocError> {
    let mut found = Clusters::of(alloc, level, chip_of)?;
    for place in 0..level.vertices() {
        let vertex = nth(place, limits.order, level.vertices());
        found.place(level, vertex, limits)?;
    }
    numbered_clusters(alloc, &found.of)
}

//! Chips that are filled one after the other, each with vertices that share nets.
use crate::cluster::pull;
use crate::level::Level;
use crate::numbers::NumberList;
use std::alloc::{AllocError, Global};

/// The chips so far.
#[derive(Drop)]
struct Growth<'a> {
    chips: u32,
    /// How many cells each chip may have.
    rooms: &'a NumberList,
    /// The chip of each vertex; the number of chips for one that has none.
    chip_of: NumberList,
    sizes: NumberList,
    /// How much the chip that is filled draws each vertex.
    scores: NumberList,
    /// For each net, one more than the last chip for which it counted.
    marks: NumberList,
}

impl<'a> Growth<'a> {
    /// No vertex has a chip.
    fn of(alloc: Global, level: &Level, rooms: &'a NumberList) -> Result<Self, AllocError> {
        let vertices = level.vertices();
        let chips = rooms.len();
        Ok(Growth {
            chips,
            rooms,
            chip_of: NumberList::filled(alloc, vertices, chips)?,
            sizes: NumberList::zeros(alloc, chips)?,
            scores: NumberList::zeros(alloc, vertices)?,
            marks: NumberList::zeros(alloc, level.of_net.len())?,
        })
    }

    /// The vertex without a chip that is drawn most, of those for which a chip has room.
    fn next(&self, level: &Level, chip: u32) -> Option<u32> {
        let mut best: Option<u32> = None;
        let mut most = 0;
        let room = self.rooms.at(chip);
        for vertex in 0..level.vertices() {
            let fits = self.sizes.at(chip).saturating_add(level.weights.at(vertex)) <= room;
            let score = self.scores.at(vertex);
            if self.chip_of.at(vertex) == self.chips && fits && (best.is_none() || score > most) {
                best = Some(vertex);
                most = score;
            }
        }
        best
    }

    /// Puts a vertex on a chip. Each of its nets draws its vertices there, once for each chip.
    fn take(&mut self, level: &Level, vertex: u32, chip: u32) {
        self.chip_of.set(vertex, chip);
        self.sizes.add(chip, level.weights.at(vertex));
        let mark = chip.saturating_add(1);
        for net in level.of_vertex.row(vertex) {
            if self.marks.at(*net) != mark {
                self.marks.set(*net, mark);
                let pins = level.of_net.row(*net);
                for other in pins {
                    self.scores.add(*other, pull(pins.len()));
                }
            }
        }
    }

    /// How many cells a chip gets of so many, where all chips are as full as each other.
    fn share(&self, chip: u32, weight: u32) -> u32 {
        let product = u64::from(weight) * u64::from(self.rooms.at(chip));
        let whole = u64::from(self.rooms.sum()).max(1);
        u32::try_from(product.div_ceil(whole)).unwrap_or(u32::MAX)
    }

    /// Fills a chip with its share of the cells, from a first vertex on.
    fn fill(&mut self, level: &Level, chip: u32, first: u32) {
        let share = self.share(chip, level.weight());
        for vertex in 0..level.vertices() {
            self.scores.set(vertex, 0);
        }
        self.take(level, first, chip);
        for _step in 0..level.vertices() {
            if self.sizes.at(chip) >= share {
                return;
            }
            match self.next(level, chip) {
                Some(vertex) => self.take(level, vertex, chip),
                None => return,
            }
        }
    }

    /// How many more cells a chip may have.
    fn left(&self, chip: u32) -> u32 {
        self.rooms.at(chip).saturating_sub(self.sizes.at(chip))
    }

    /// The chip with most room left.
    fn emptiest(&self) -> u32 {
        let mut best = 0;
        for chip in 0..self.chips {
            if self.left(chip) > self.left(best) {
                best = chip;
            }
        }
        best
    }
}

/// A chip for each vertex: the chips are filled one after the other, the first one from a vertex on.
pub fn grown(
    alloc: Global,
    level: &Level,
    rooms: &NumberList,
    seed: u32,
) -> Result<NumberList, AllocError> {
    let mut growth = Growth::of(alloc, level, rooms)?;
    let chips = rooms.len();
    growth.fill(level, 0, seed);
    for chip in 1..chips {
        if let Some(first) = growth.next(level, chip) {
            growth.fill(level, chip, first);
        }
    }
    for vertex in 0..level.vertices() {
        if growth.chip_of.at(vertex) == chips {
            let chip = growth.emptiest();
            growth.chip_of.set(vertex, chip);
            growth.sizes.add(chip, level.weights.at(vertex));
        }
    }
    Ok(growth.chip_of)
}

//! Vertices on chips, and moves of single vertices.
use crate::level::Level;
use crate::numbers::NumberList;
use std::alloc::{AllocError, Global};

/// The chip of each vertex, from 0 on, and what the moves look up.
pub struct Cut {
    chips: u32,
    /// How many cells each chip may have.
    rooms: NumberList,
    pub chip_of: NumberList,
    /// How many cells each chip has.
    sizes: NumberList,
    /// For each net and then each chip, how many vertices of the net are on the chip.
    counts: NumberList,
    /// For each chip, how many nets of the vertex that is looked at have a vertex on it.
    there: NumberList,
}

// Written out, since a derived drop is proved anew in each function where it runs.
impl Drop for Cut {
    fn drop(self) {
        let Cut {
            chips: _,
            rooms: _,
            chip_of: _,
            sizes: _,
            counts: _,
            there: _,
        } = self;
    }
}

impl Cut {
    /// The vertices of a level on these chips.
    pub fn of(
        alloc: Global,
        level: &Level,
        rooms: &NumberList,
        chip_of: NumberList,
    ) -> Result<Self, AllocError> {
        let chips = rooms.len();
        let mut cut = Cut {
            chips,
            rooms: rooms.copied(alloc)?,
            chip_of,
            sizes: NumberList::zeros(alloc, chips)?,
            counts: NumberList::zeros(alloc, level.of_net.len().saturating_mul(chips))?,
            there: NumberList::zeros(alloc, chips)?,
        };
        for vertex in 0..level.vertices() {
            let chip = cut.chip_of.at(vertex);
            cut.sizes.add(chip, level.weights.at(vertex));
            for net in level.of_vertex.row(vertex) {
                let place = cut.place(*net, chip);
                cut.counts.add(place, 1);
            }
        }
        Ok(cut)
    }

    /// Where the count of a net on a chip stands.
    fn place(&self, net: u32, chip: u32) -> u32 {
        net.wrapping_mul(self.chips).wrapping_add(chip)
    }

    /// How many nets of a vertex no other vertex of its chip has.
    fn nets_freed(&self, level: &Level, vertex: u32) -> u32 {
        let own = self.chip_of.at(vertex);
        let mut freed: u32 = 0;
        for net in level.of_vertex.row(vertex) {
            if self.counts.at(self.place(*net, own)) == 1 {
                freed = freed.saturating_add(1);
            }
        }
        freed
    }

    /// How many vertices of a net are on a chip.
    pub fn count(&self, net: u32, chip: u32) -> u32 {
        self.counts.at(self.place(net, chip))
    }

    /// Of two chips: how many nets of a vertex are on the other one or leave its own with it, each counted for both.
    pub fn better_nets(&self, level: &Level, vertex: u32) -> u32 {
        let own = self.chip_of.at(vertex);
        let mut better = self.nets_freed(level, vertex);
        for net in level.of_vertex.row(vertex) {
            if self.count(*net, 1u32.saturating_sub(own)) > 0 {
                better = better.saturating_add(1);
            }
        }
        better
    }

    /// Of two chips: whether the other one has room for a vertex.
    pub fn may_cross(&self, level: &Level, vertex: u32) -> bool {
        let other = 1u32.saturating_sub(self.chip_of.at(vertex));
        self.sizes
            .at(other)
            .saturating_add(level.weights.at(vertex))
            <= self.rooms.at(other)
    }

    /// Counts the nets of a vertex on each chip.
    fn look(&mut self, level: &Level, vertex: u32) {
        for chip in 0..self.chips {
            self.there.set(chip, 0);
        }
        for net in level.of_vertex.row(vertex) {
            let first = self.place(*net, 0);
            let counts = self.counts.between(first, first.wrapping_add(self.chips));
            self.there.count(counts);
        }
    }

    /// The other chip with room that has most nets of the vertex that is looked at; the emptiest of them.
    fn best(&self, weight: u32, own: u32) -> Option<u32> {
        let mut best: Option<u32> = None;
        for chip in 0..self.chips {
            let size = self.sizes.at(chip);
            let (most, least) = match best {
                Some(other) => (self.there.at(other), self.sizes.at(other)),
                None => (0, u32::MAX),
            };
            let there = self.there.at(chip);
            let better = there > most || (there == most && size < least);
            if chip != own && size.saturating_add(weight) <= self.rooms.at(chip) && better {
                best = Some(chip);
            }
        }
        best
    }

    /// Moves a vertex.
    pub fn shift(&mut self, level: &Level, vertex: u32, chip: u32) {
        let own = self.chip_of.at(vertex);
        for net in level.of_vertex.row(vertex) {
            let left = self.place(*net, own);
            let joined = self.place(*net, chip);
            self.counts.subtract(left, 1);
            self.counts.add(joined, 1);
        }
        self.sizes.subtract(own, level.weights.at(vertex));
        self.sizes.add(chip, level.weights.at(vertex));
        self.chip_of.set(vertex, chip);
    }

    /// Moves a vertex where that helps, or costs nothing and evens the chips, or costs little and its chip is overfull.
    fn consider(&mut self, level: &Level, vertex: u32, loss: u32) -> bool {
        let own = self.chip_of.at(vertex);
        let is_over = self.is_over(own);
        let freed = self.nets_freed(level, vertex);
        if freed == 0 && !is_over {
            return false;
        }
        self.look(level, vertex);
        let weight = level.weights.at(vertex);
        let Some(chip) = self.best(weight, own) else {
            return false;
        };
        let degree = u32::try_from(level.of_vertex.row(vertex).len()).unwrap_or(u32::MAX);
        let gain = freed.saturating_add(self.there.at(chip));
        let is_even = gain == degree
            && self.sizes.at(chip).saturating_add(weight) < self.sizes.at(own);
        if gain > degree || is_even || (is_over && gain.saturating_add(loss) >= degree) {
            self.shift(level, vertex, chip);
            return true;
        }
        false
    }

    /// Whether this chip has more cells than it may.
    fn is_over(&self, chip: u32) -> bool {
        self.sizes.at(chip) > self.rooms.at(chip)
    }

    /// Whether some chip has more cells than it may.
    fn is_overfull(&self) -> bool {
        for chip in 0..self.chips {
            if self.is_over(chip) {
                return true;
            }
        }
        false
    }

    /// Goes over all vertices once, and says whether one moved.
    fn sweep(&mut self, level: &Level, loss: u32) -> bool {
        let mut moved = false;
        for vertex in 0..level.vertices() {
            if self.consider(level, vertex, loss) {
                moved = true;
            }
        }
        moved
    }

    /// Goes over the vertices a few times, as long as that moves some.
    pub fn sweeps(&mut self, level: &Level) {
        for round in 0..6u32 {
            if !self.sweep(level, round * round) && !self.is_overfull() {
                return;
            }
        }
    }

    /// How bad it is: on how many chips the nets are, and much more for each cell too many on a chip.
    pub fn cost(&self) -> u64 {
        let mut cost: u64 = 0;
        for place in 0..self.counts.len() {
            if self.counts.at(place) > 0 {
                cost = cost.saturating_add(1);
            }
        }
        for chip in 0..self.chips {
            let over = self.sizes.at(chip).saturating_sub(self.rooms.at(chip));
            cost = cost.saturating_add(u64::from(over) * 1000);
        }
        cost
    }

    /// The chip of each vertex.
    pub fn into_chip_of(self) -> NumberList {
        let Cut {
            chips: _,
            rooms: _,
            chip_of,
            sizes: _,
            counts: _,
            there: _,
        } = self;
        chip_of
    }

    /// On how many chips the nets are, beyond one for each net.
    pub fn extra(&self, level: &Level) -> u64 {
        self.cost().saturating_sub(u64::from(level.of_net.len()))
    }
}

/// The cut that costs less.
pub fn better(one: Cut, other: Cut) -> Cut {
    if other.cost() < one.cost() {
        other
    } else {
        one
    }
}

//! Chains of moves between two chips, of which the first ones may cost something.
use crate::cut::Cut;
use crate::level::Level;
use crate::numbers::NumberList;
use std::alloc::{AllocError, Global};
use std::collections::BinaryHeap;

/// The gain of a move that changes nothing. So no gain is below 0.
const EVEN: u32 = 1 << 31;

/// The gain of a vertex's move to the other chip, and the vertex. The greatest gain comes first.
type Candidate = (u32, u32);

/// A chain of moves under way.
struct Climb {
    /// The gain of each vertex that may still move; 0 for one that has moved.
    gains: NumberList,
    /// The vertices of the first chip and of the second one, some with gains that they have no more.
    low: BinaryHeap<Candidate>,
    high: BinaryHeap<Candidate>,
    /// The vertices that have moved.
    moved: Vec<u32>,
}

// Written out, since a derived drop is proved anew in each function where it runs.
impl Drop for Climb {
    fn drop(self) {
        let Climb {
            gains: _,
            low: _,
            high: _,
            moved: _,
        } = self;
    }
}

impl Climb {
    /// The gains before the first move. Vertices whose nets are all on their own chip aren't candidates yet.
    fn of(alloc: Global, level: &Level, cut: &Cut) -> Result<Self, AllocError> {
        let mut climb = Climb {
            gains: NumberList::zeros(alloc, level.vertices())?,
            low: BinaryHeap::new(alloc),
            high: BinaryHeap::new(alloc),
            moved: Vec::new(alloc),
        };
        for vertex in 0..level.vertices() {
            let degree = u32::try_from(level.of_vertex.row(vertex).len()).unwrap_or(u32::MAX);
            let better = cut.better_nets(level, vertex);
            climb
                .gains
                .set(vertex, EVEN.wrapping_add(better).wrapping_sub(degree));
            if better > 0 {
                climb.offer(cut, vertex)?;
            }
        }
        Ok(climb)
    }

    /// Makes a vertex a candidate with its gain.
    fn offer(&mut self, cut: &Cut, vertex: u32) -> Result<(), AllocError> {
        let candidate = (self.gains.at(vertex), vertex);
        if cut.chip_of.at(vertex) == 0 {
            self.low.push(candidate)?;
        } else {
            self.high.push(candidate)?;
        }
        Ok(())
    }

    /// The best candidate of both chips, taken out; it may have changed since it was offered.
    fn pop(&mut self) -> Option<Candidate> {
        let low = self.low.peek().map_or(0, |(gain, _)| *gain);
        let high = self.high.peek().map_or(0, |(gain, _)| *gain);
        if low > high {
            self.low.pop()
        } else {
            self.high.pop()
        }
    }

    /// Changes the gain of a vertex that may still move.
    fn change(&mut self, cut: &Cut, vertex: u32, more: u32, less: u32) -> Result<(), AllocError> {
        let gain = self.gains.at(vertex);
        if gain == 0 {
            return Ok(());
        }
        self.gains
            .set(vertex, gain.wrapping_add(more).wrapping_sub(less));
        if more > less {
            self.offer(cut, vertex)?;
        }
        Ok(())
    }

    /// Changes the gains of a net's vertices, of one chip or of both.
    fn change_all(
        &mut self,
        cut: &Cut,
        net: &[u32],
        chip: Option<u32>,
        more: u32,
        less: u32,
    ) -> Result<(), AllocError> {
        for vertex in net {
            if chip.is_none() || chip == Some(cut.chip_of.at(*vertex)) {
                self.change(cut, *vertex, more, less)?;
            }
        }
        Ok(())
    }

    /// Changes the gains of the vertices that share nets with one that joins a chip or has left it: all vertices of a net that
    /// has none there, and the only one there of a net that has one.
    fn change_near(
        &mut self,
        level: &Level,
        cut: &Cut,
        vertex: u32,
        chip: u32,
        joins: bool,
    ) -> Result<(), AllocError> {
        let (more, less) = if joins { (1, 0) } else { (0, 1) };
        for net in level.of_vertex.row(vertex) {
            let near = level.of_net.row(*net);
            match cut.count(*net, chip) {
                0 => self.change_all(cut, near, None, more, less)?,
                1 => self.change_all(cut, near, Some(chip), less, more)?,
                _ => {}
            }
        }
        Ok(())
    }

    /// Moves a vertex to the other chip, and changes the gains of the vertices that share nets with it.
    fn shift(&mut self, level: &Level, cut: &mut Cut, vertex: u32) -> Result<(), AllocError> {
        let own = cut.chip_of.at(vertex);
        let other = 1u32.saturating_sub(own);
        self.gains.set(vertex, 0);
        self.change_near(level, cut, vertex, other, true)?;
        cut.shift(level, vertex, other);
        self.change_near(level, cut, vertex, own, false)?;
        self.moved.push(vertex)?;
        Ok(())
    }

    /// Takes back all moves but so many.
    fn take_back(&mut self, level: &Level, cut: &mut Cut, kept: usize) {
        for _move in kept..self.moved.len() {
            if let Some(vertex) = self.moved.pop() {
                let own = cut.chip_of.at(vertex);
                cut.shift(level, vertex, 1u32.saturating_sub(own));
            }
        }
    }

    /// Moves vertices, each once at most, the one of greatest gain first, and keeps those moves that are best together. Says
    /// whether that gained something.
    fn go(&mut self, level: &Level, cut: &mut Cut, patience: usize) -> Result<bool, AllocError> {
        // the gains since the best place so far, and what they would be if nothing had changed
        let mut gains: u64 = 0;
        let mut evens: u64 = 0;
        let mut best: usize = 0;
        for _step in 0..u64::from(u32::MAX) {
            let Some((offered, vertex)) = self.pop() else {
                break;
            };
            let gain = self.gains.at(vertex);
            if gain < offered && gain > 0 {
                self.offer(cut, vertex)?;
            }
            if gain != offered || !cut.may_cross(level, vertex) {
                continue;
            }
            self.shift(level, cut, vertex)?;
            gains = gains.saturating_add(u64::from(gain));
            evens = evens.saturating_add(u64::from(EVEN));
            if gains > evens {
                best = self.moved.len();
                gains = 0;
                evens = 0;
            }
            if self.moved.len().saturating_sub(best) > patience {
                break;
            }
        }
        self.take_back(level, cut, best);
        Ok(best > 0)
    }
}

/// Makes chains of moves between two chips, as long as they gain something.
pub fn climbs(alloc: Global, level: &Level, cut: &mut Cut) -> Result<(), AllocError> {
    let patience = 50 + level.vertices() as usize / 50;
    for _round in 0..8u32 {
        let mut climb = Climb::of(alloc, level, cut)?;
        if !climb.go(level, cut, patience)? {
            return Ok(());
        }
    }
    Ok(())
}

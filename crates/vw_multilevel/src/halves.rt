//! Cells on chips by halves of halves.
use crate::cut::{Cut, better};
use crate::level::Level;
use crate::numbers::NumberList;
use crate::run::MultilevelRun;
use std::alloc::{AllocError, Global};

/// Cells in parts of which each is to be dealt to some chips in a row.
#[derive(Drop)]
struct CellParts {
    /// How many cells a chip may have.
    room: u32,
    /// The first chip of the part of each cell.
    first_of: NumberList,
    /// For each chip, how many chips the part has that begins with it; 0 where none does.
    many: NumberList,
    /// The number of each cell within the part that is halved; the greatest number for one that isn't in it.
    map: NumberList,
}

/// How often so many chips are halved until each one stands alone.
fn halvings(chips: u32) -> u64 {
    match chips {
        0..=2 => 1,
        3..=4 => 2,
        5..=8 => 3,
        9..=16 => 4,
        _ => 5,
    }
}

impl CellParts {
    /// All cells in one part.
    fn whole(alloc: Global, cells: u32, chips: u32, room: u32) -> Result<Self, AllocError> {
        let mut many = NumberList::zeros(alloc, chips)?;
        many.set(0, chips);
        Ok(CellParts {
            room,
            first_of: NumberList::zeros(alloc, cells)?,
            many,
            map: NumberList::zeros(alloc, cells)?,
        })
    }

    /// Numbers the cells of a part, and says how many there are.
    fn number(&mut self, first: u32) -> u32 {
        let mut cells: u32 = 0;
        for cell in 0..self.map.len() {
            if self.first_of.at(cell) == first {
                self.map.set(cell, cells);
                cells = cells.saturating_add(1);
            } else {
                self.map.set(cell, u32::MAX);
            }
        }
        cells
    }

    /// How many cells may go to so many of the chips of a part. What the part has to spare is shared among the halvings
    /// that are still to come.
    fn room_of(&self, chips: u32, all: u32, cells: u32) -> u32 {
        let spare = (u64::from(all) * u64::from(self.room)).saturating_sub(u64::from(cells));
        let wanted = u64::from(cells).saturating_add(spare / halvings(all).max(1));
        let room = wanted
            .saturating_mul(u64::from(chips))
            .div_ceil(u64::from(all.max(1)));
        u32::try_from(room).unwrap_or(u32::MAX)
    }

    /// How the cells of a part are dealt to two halves of its chips, the first one with so many of them.
    fn halving(
        &self,
        alloc: Global,
        low: u32,
        all: u32,
        cells: u32,
    ) -> Result<MultilevelRun, AllocError> {
        let mut rooms = NumberList::new(alloc);
        rooms.push(self.room_of(low, all, cells))?;
        rooms.push(self.room_of(all.saturating_sub(low), all, cells))?;
        let mut wide = NumberList::new(alloc);
        for half in 0..2 {
            wide.push(rooms.at(half).saturating_add(cells / 256))?;
        }
        Ok(MultilevelRun {
            rooms,
            wide,
            order: 0,
            most: (cells / 8).max(2),
        })
    }

    /// Halves the part that begins with a chip; the best of some tries counts.
    fn halve(
        &mut self,
        alloc: Global,
        top: &Level,
        first: u32,
        tries: u32,
    ) -> Result<(), AllocError> {
        let all = self.many.at(first);
        let low = all.div_ceil(2);
        let cells = self.number(first);
        let level = top.of_some(alloc, &self.map, cells)?;
        let mut run = self.halving(alloc, low, all, cells)?;
        let mut best = run.of(alloc, &level)?;
        for order in 1..tries {
            // where most is cut, another try finds little, and where next to nothing is cut, it gains little
            let extra = best.extra(&level);
            if extra > u64::from(cells / 64) || extra <= u64::from(cells / 4096) {
                break;
            }
            run.order = order;
            best = better(best, run.of(alloc, &level)?);
        }
        self.split(&best, first, low);
        Ok(())
    }

    /// Gives the cells of the second half of a part their first chip.
    fn split(&mut self, cut: &Cut, first: u32, low: u32) {
        let second = first.saturating_add(low);
        for cell in 0..self.map.len() {
            if self.first_of.at(cell) == first && cut.chip_of.at(self.map.at(cell)) == 1 {
                self.first_of.set(cell, second);
            }
        }
        self.many
            .set(second, self.many.at(first).saturating_sub(low));
        self.many.set(first, low);
    }
}

/// The cells on chips with so much room: all chips are halved, then each half, and so on, each by the best of some tries.
pub fn halved(
    alloc: Global,
    top: &Level,
    chips: u32,
    room: u32,
    tries: u32,
) -> Result<NumberList, AllocError> {
    let mut parts = CellParts::whole(alloc, top.vertices(), chips, room)?;
    for _round in 0..6u32 {
        for first in 0..chips {
            if parts.many.at(first) > 1 {
                parts.halve(alloc, top, first, tries)?;
            }
        }
    }
    Ok(parts.first_of)
}

//! Where cells might be put, given where they are: a round of refinement. In the field: V-cycles of multilevel partitioning
//! (Walshaw 2004), driven by timing.
use crate::arcs::timed_level;
use crate::cluster::{Limits, clustered};
use crate::cut::Cut;
use crate::level::Level;
use crate::numbers::NumberList;
use crate::run::{Coarser, finer};
use crate::urgency::Urgency;
use std::alloc::{AllocError, Global};
use vw_net::{Cell, Ordered};
use vw_plan::Board;

/// How many counts of a net on a chip all rounds may have together.
const MOST_WORK: u64 = 50_000_000;

/// A round.
#[derive(Drop)]
struct Round<'a> {
    board: &'a Board,
    /// Its number.
    number: u32,
    /// The most cells of a cluster.
    most: u32,
}

impl<'a> Round<'a> {
    /// The clusters of a level, each within a chip.
    fn clusters(
        &self,
        alloc: Global,
        level: &Level,
        chip_of: &NumberList,
    ) -> Result<(NumberList, u32), AllocError> {
        let average = level.weight().div_ceil(level.vertices().max(1));
        let window = 16_000_000 / level.of_net.size().saturating_add(1);
        let limits = Limits {
            most: self.most.min(average.saturating_mul(4)),
            choosy: false,
            order: self.number % 4,
            window: window.max(8).min(40),
        };
        clustered(alloc, level, chip_of, limits)
    }

    /// Clusters of clusters, each within a chip, until few are left or few more are found. The chips of the vertices become
    /// those of the last clusters.
    fn coarser_levels(
        &self,
        alloc: Global,
        top: &Level,
        chip_of: &mut NumberList,
    ) -> Result<Vec<Coarser>, AllocError> {
        let few = self.board.chips().saturating_mul(20);
        let mut levels: Vec<Coarser> = Vec::new(alloc);
        for _round in 0..30u32 {
            let last = match levels.last() {
                Some(coarser) => &coarser.level,
                None => top,
            };
            let vertices = last.vertices();
            if vertices <= few {
                break;
            }
            let (map, many) = self.clusters(alloc, last, chip_of)?;
            if u64::from(many) * 20 > u64::from(vertices) * 19 {
                break;
            }
            *chip_of = chips_of_clusters(alloc, &map, many, chip_of)?;
            let level = last.of_clusters(alloc, &map, many)?;
            levels.push(Coarser { level, map })?;
        }
        Ok(levels)
    }

    /// How many cells a chip may have at a level so far from the finest one, of so many: at the last one a twentieth more than
    /// at last.
    fn room(&self, far: usize, levels: usize) -> u32 {
        let room = u64::from(self.board.cells());
        let steps = (levels as u64).saturating_mul(20);
        let more = room
            .saturating_mul(far as u64)
            .checked_div(steps)
            .unwrap_or(0);
        u32::try_from(room.saturating_add(more)).unwrap_or(u32::MAX)
    }

    /// The vertices on chips that have so much room, after moves that help.
    fn swept(
        &self,
        alloc: Global,
        level: &Level,
        room: u32,
        chip_of: NumberList,
    ) -> Result<NumberList, AllocError> {
        let rooms = NumberList::filled(alloc, self.board.chips(), room)?;
        let mut cut = Cut::of(alloc, level, &rooms, chip_of)?;
        cut.sweeps(level);
        Ok(cut.into_chip_of())
    }

    /// The vertices on chips after moves of clusters, from great ones to single vertices.
    fn refined(
        &self,
        alloc: Global,
        top: &Level,
        mut chip_of: NumberList,
    ) -> Result<NumberList, AllocError> {
        let mut levels = self.coarser_levels(alloc, top, &mut chip_of)?;
        let all = levels.len();
        while let Some(coarser) = levels.pop() {
            let room = self.room(levels.len().saturating_add(1), all);
            let swept = self.swept(alloc, &coarser.level, room, chip_of)?;
            chip_of = finer(alloc, &coarser.map, &swept)?;
        }
        self.swept(alloc, top, self.board.cells(), chip_of)
    }
}

/// The chip of each of so many clusters, given the cluster of each vertex.
fn chips_of_clusters(
    alloc: Global,
    map: &NumberList,
    clusters: u32,
    chip_of: &NumberList,
) -> Result<NumberList, AllocError> {
    let mut chips = NumberList::zeros(alloc, clusters)?;
    for vertex in 0..map.len() {
        chips.set(map.at(vertex), chip_of.at(vertex));
    }
    Ok(chips)
}

/// The number of the chip of each cell, from 0 on.
fn numbers_of(alloc: Global, chip_of: &[u32]) -> Result<NumberList, AllocError> {
    let mut numbers = NumberList::new(alloc);
    for chip in chip_of {
        numbers.push(chip.saturating_sub(1))?;
    }
    Ok(numbers)
}

/// How many rounds a design is worth on a board: fewer of large ones. It rests on how many nets the cells drive and read, and on
/// the number of chips.
pub fn rounds(ordered: &Ordered, board: &Board) -> u32 {
    let mut pins: u64 = 0;
    for cell in ordered.flat().cells() {
        let more = match cell {
            Cell::Gate { ins, .. } => (ins.as_slice().len() as u64).saturating_add(1),
            Cell::Latch { .. } => 2,
        };
        // and two for an arc
        pins = pins.saturating_add(more).saturating_add(2);
    }
    let work = pins.saturating_mul(u64::from(board.chips()));
    let many = MOST_WORK.checked_div(work).unwrap_or(MOST_WORK);
    u32::try_from(many.max(2).min(24)).unwrap_or(24)
}

/// A chip for each cell, given the chips of a plan: where it might be put so that critical paths are shorter and few nets are
/// on several chips. It is another hint; nothing but how good a plan becomes rests on it.
///
/// The cells of each chip are put into clusters, these into greater ones, and then great clusters, lesser ones and at last
/// cells are moved to chips where that helps. Each arc of a critical path is a further net of two cells, or several, by the
/// urgency. Rounds are numbered: they look at the cells in several orders and make clusters of two sizes. It takes memory for
/// the nets of the cells, for two arcs a cell, and for each chip a number for each of these.
pub fn again(
    alloc: Global,
    ordered: &Ordered,
    board: &Board,
    chip_of: &[u32],
    number: u32,
    urgency: Urgency,
) -> Result<Vec<u32>, AllocError> {
    let top = timed_level(alloc, ordered, board, chip_of, urgency)?;
    let share = top.vertices().checked_div(board.chips()).unwrap_or(0);
    let most = if number % 2 == 0 {
        share / 6
    } else {
        share / 12
    };
    let round = Round {
        board,
        number,
        most: most.max(2),
    };
    let old = numbers_of(alloc, chip_of)?;
    let new = round.refined(alloc, &top, old)?;
    let mut wishes = Vec::with_capacity(alloc, chip_of.len())?;
    for cell in 0..new.len() {
        wishes.push(new.at(cell).saturating_add(1))?;
    }
    Ok(wishes)
}

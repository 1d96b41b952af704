//! Vertices on chips by clusters of clusters.
use crate::climb::climbs;
use crate::cluster::{Limits, clustered};
use crate::cut::Cut;
use crate::grow::grown;
use crate::level::Level;
use crate::numbers::NumberList;
use std::alloc::{AllocError, Global};

/// A level of clusters, and the cluster of each vertex of the level before it.
pub struct Coarser {
    pub level: Level,
    pub map: NumberList,
}

impl Drop for Coarser {
    fn drop(self) {
        let Coarser { level: _, map: _ } = self;
    }
}

/// How a run goes.
pub struct MultilevelRun {
    /// How many cells each chip may have at last.
    pub rooms: NumberList,
    /// How many it may have before.
    pub wide: NumberList,
    /// In which order the vertices are looked at, as a number.
    pub order: u32,
    /// The most cells of a cluster.
    pub most: u32,
}

// Written out, since a derived drop is proved anew in each function where it runs.
impl Drop for MultilevelRun {
    fn drop(self) {
        let MultilevelRun {
            rooms: _,
            wide: _,
            order: _,
            most: _,
        } = self;
    }
}

impl MultilevelRun {
    /// How few vertices are dealt to the chips without further clusters.
    fn few(&self) -> u32 {
        if self.rooms.len() == 2 {
            120
        } else {
            self.rooms.len().saturating_mul(20)
        }
    }

    /// The clusters of a level. None is much heavier than the others, so that they can be dealt evenly.
    fn clusters(
        &self,
        alloc: Global,
        level: &Level,
        choosy: bool,
    ) -> Result<(NumberList, u32), AllocError> {
        let average = level.weight().div_ceil(level.vertices().max(1));
        let window = 16_000_000 / level.of_net.size().saturating_add(1);
        let limits = Limits {
            most: self.most.min(average.saturating_mul(4)),
            choosy,
            order: self.order,
            window: window.max(8).min(40),
        };
        clustered(alloc, level, &NumberList::new(alloc), limits)
    }

    /// Clusters of clusters, until few are left or none more are found. The vertices are choosy as long as that leads to
    /// clusters.
    fn coarser_levels(&self, alloc: Global, top: &Level) -> Result<Vec<Coarser>, AllocError> {
        let mut levels: Vec<Coarser> = Vec::new(alloc);
        let mut choosy = true;
        for _round in 0..30u32 {
            let last = match levels.last() {
                Some(coarser) => &coarser.level,
                None => top,
            };
            let vertices = last.vertices();
            if vertices <= self.few() {
                break;
            }
            let (map, many) = self.clusters(alloc, last, choosy)?;
            if u64::from(many) * 20 > u64::from(vertices) * 19 {
                if !choosy {
                    break;
                }
                choosy = false;
                continue;
            }
            let level = last.of_clusters(alloc, &map, many)?;
            levels.push(Coarser { level, map })?;
        }
        Ok(levels)
    }

    /// How many growths a level is worth. Two chips cost little to try.
    fn seeds(&self, level: &Level) -> u64 {
        let most = if self.rooms.len() == 2 { 24 } else { 8 };
        let worth = 1_000_000 / (u64::from(level.of_net.size()) + 1);
        worth.max(2).min(most)
    }

    /// The best of some growths, after sweeps.
    fn start(&self, alloc: Global, level: &Level) -> Result<NumberList, AllocError> {
        let seeds = self.seeds(level);
        let mut best = None;
        let mut least = u64::MAX;
        for seed in 0..seeds {
            let seed = u64::from(level.vertices()).saturating_mul(seed) / seeds;
            let seed = u32::try_from(seed).unwrap_or(0);
            let chip_of = grown(alloc, level, &self.wide, seed)?;
            let cut = self.swept(alloc, level, &self.wide, chip_of)?;
            let cost = cut.cost();
            if cost < least || best.is_none() {
                least = cost;
                best = Some(cut.into_chip_of());
            }
        }
        match best {
            Some(chip_of) => Ok(chip_of),
            None => NumberList::zeros(alloc, level.vertices()),
        }
    }

    /// The vertices on chips: clusters of clusters are put on chips, and then the levels are gone down again, with sweeps
    /// at each.
    pub fn of(&self, alloc: Global, top: &Level) -> Result<Cut, AllocError> {
        let mut levels = self.coarser_levels(alloc, top)?;
        let coarsest = match levels.last() {
            Some(coarser) => &coarser.level,
            None => top,
        };
        let mut chip_of = self.start(alloc, coarsest)?;
        while let Some(coarser) = levels.pop() {
            let cut = self.swept(alloc, &coarser.level, &self.wide, chip_of)?;
            chip_of = finer(alloc, &coarser.map, &cut.chip_of)?;
        }
        self.swept(alloc, top, &self.rooms, chip_of)
    }

    /// The vertices on chips after moves that help; of two chips, after chains of moves, too.
    fn swept(
        &self,
        alloc: Global,
        level: &Level,
        rooms: &NumberList,
        chip_of: NumberList,
    ) -> Result<Cut, AllocError> {
        let mut cut = Cut::of(alloc, level, rooms, chip_of)?;
        cut.sweeps(level);
        if rooms.len() == 2 {
            climbs(alloc, level, &mut cut)?;
        }
        Ok(cut)
    }
}

/// The chip of each vertex of a finer level, given that of each cluster.
pub fn finer(
    alloc: Global,
    map: &NumberList,
    chip_of: &NumberList,
) -> Result<NumberList, AllocError> {
    let mut chips = NumberList::zeros(alloc, map.len())?;
    for vertex in 0..map.len() {
        chips.set(vertex, chip_of.at(map.at(vertex)));
    }
    Ok(chips)
}

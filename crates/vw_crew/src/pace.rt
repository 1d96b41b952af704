//! How many threads the rounds of a run are worth.
ghost use Rattle.std.specs.Prelude.{◌<◌};

use crate::costs::{FORK, GOOD_ROUNDS, GRACE, REST, STRETCH, STRETCH_DOUBLINGS, TOP_LEVEL, worth};
use crate::patience::Round;

/// How many levels there are.
const LEVELS: usize = 7;

/// How many threads the rounds of a run are worth, by what they came to so far. It lasts over the batches of the run. It only
/// spares time: no answer rests on it.
///
/// Threads that only hand words to each other wait for each other, and on busy cores each hand-over costs a turn of the
/// scheduler. So the waits of rounds are counted against the actions that they made. Where too much was waited, the calling
/// thread goes on alone for a while, and then fewer threads are tried, each of which has more groups. After a stretch of good
/// rounds, or of actions of the calling thread alone, more threads are tried again: a stretch that doubles each time that they
/// fail.
#[derive(Drop)]
pub struct Pace {
    /// At most 2 to the power of this many threads work; at 0 the calling thread alone.
    level: u32,
    /// At this level each group has a thread of its own.
    top: u32,
    /// The level after this one.
    next: u32,
    /// How many actions are left until then.
    left: u64,
    /// How many spins each thread may wait beyond what a round is worth, by what earlier rounds of the level were worth.
    credit: u64,
    /// How many rounds in a row were worth their threads.
    good: u32,
    /// How often each level has failed, less what good rounds have made up for.
    failed: [u32; LEVELS],
}

/// At the level for so many groups each has a thread of its own, as far as there are threads.
fn top_of(groups: usize) -> u32 {
    for level in 0..TOP_LEVEL {
        if groups <= 1usize << level {
            return level;
        }
    }
    TOP_LEVEL
}

impl Pace {
    /// Before the first round. It takes no memory.
    pub fn new() -> Self {
        Pace {
            level: TOP_LEVEL,
            top: TOP_LEVEL,
            next: TOP_LEVEL,
            left: 0,
            credit: 0,
            good: 0,
            failed: [0; LEVELS],
        }
    }

    /// Whether the calling thread goes on alone.
    pub(crate) fn is_alone(&self) -> bool {
        self.level == 0
    }

    /// How many groups each thread of the next round has, of so many in all.
    pub(crate) fn groups_of_each(&self, groups: usize) -> usize
        ensures { 0 < result }
    {
        groups.div_ceil(1usize << self.level.min(TOP_LEVEL)).max(1)
    }

    /// After how many actions a level is tried: at once where it hasn't failed.
    fn stretch(&self, level: u32) -> u64 {
        match self.failed[level.min(TOP_LEVEL) as usize] {
            0 => 0,
            times => STRETCH << times.saturating_sub(1).min(STRETCH_DOUBLINGS),
        }
    }

    /// From now on as many threads work as a level says, until the one above it is tried, or the top one after the calling thread
    /// alone: few threads may have more uneven parts of the nodes than many.
    fn turn_to(&mut self, level: u32) {
        let above = level.saturating_add(1);
        self.level = level;
        self.next = if level == 0 { self.top } else { above };
        self.left = self.stretch(above);
        self.credit = 0;
        self.good = 0;
    }

    /// So many actions were made at this level. At the end of the stretch the next one is tried.
    fn use_up(&mut self, made: u64) {
        self.left = self.left.saturating_sub(made);
        if self.left == 0 {
            self.turn_to(self.next);
        }
    }

    /// Counts actions that the calling thread made alone. Where it made none, the stretch is over.
    pub(crate) fn count_alone(&mut self, made: u64) {
        self.use_up(if made == 0 { u64::MAX } else { made });
    }

    /// Counts a round of so many groups.
    pub(crate) fn count_round(&mut self, groups: usize, round: &Round) {
        self.top = top_of(groups);
        let level = self.level.min(self.top);
        let credit = self
            .credit
            .saturating_add(worth(round.made(), round.threads()));
        let cost = (round.waited() / round.threads().max(1)).saturating_add(FORK);
        if credit < cost {
            self.fail(level);
            return;
        }
        self.credit = (credit - cost).min(3 * GRACE);
        self.count_good(level);
        if level < self.top {
            self.use_up(round.made());
        }
    }

    /// Counts a round at this level that was worth its threads.
    fn count_good(&mut self, level: u32) {
        self.good = self.good.saturating_add(1);
        if self.good >= GOOD_ROUNDS {
            self.good = 0;
            let failed = &mut self.failed[level.min(TOP_LEVEL) as usize];
            *failed = failed.saturating_sub(1);
        }
    }

    /// A level has failed. The calling thread goes on alone, and then comes the level below it; or that of half as much, where
    /// it has failed for the first time, so that many workers on few cores soon come to as many threads as there are cores.
    fn fail(&mut self, level: u32) {
        let failed = &mut self.failed[level.min(TOP_LEVEL) as usize];
        *failed = failed.saturating_add(1).min(STRETCH_DOUBLINGS + 1);
        let lower = if *failed == 1 {
            level / 2
        } else {
            level.saturating_sub(1)
        };
        self.turn_to(0);
        if lower > 0 {
            self.next = lower;
            self.left = REST;
        }
    }
}

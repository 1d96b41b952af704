//! How the threads of a round wait for each other.
use crate::costs::{DOUBLINGS, FIRST_LOOKS, LOOK, grace, worth};
use std::sync::atomic::{AtomicBool, AtomicU64, Ordering};

/// What the threads of one round tell each other and the thread that began it. Nothing of the answer rests on it.
#[derive(Drop)]
pub struct Round {
    /// How many threads work.
    threads: u64,
    /// Whether one of them has ended its bursts, or has given the round up.
    ended: AtomicBool,
    /// How many actions they have made.
    made: AtomicU64,
    /// How many spins those have waited that have ended their bursts.
    waited: AtomicU64,
}

impl Round {
    /// A round of so many threads, of which none has done anything. It takes no memory.
    pub fn new(threads: u64) -> Self {
        Round {
            threads,
            ended: AtomicBool::new(false),
            made: AtomicU64::new(0),
            waited: AtomicU64::new(0),
        }
    }

    /// How many threads work.
    pub fn threads(&self) -> u64 {
        self.threads
    }

    /// How many actions they have made.
    pub fn made(&self) -> u64 {
        self.made.load(Ordering::SeqCst)
    }

    /// How many spins those have waited that have ended their bursts.
    pub fn waited(&self) -> u64 {
        self.waited.load(Ordering::SeqCst)
    }

    /// Whether a thread has ended its bursts, or has given the round up.
    fn has_ended(&self) -> bool {
        self.ended.load(Ordering::SeqCst)
    }

    /// From now on no thread of the round waits.
    fn end(&self) {
        self.ended.store(true, Ordering::SeqCst);
    }
}

/// How long a thread of a round waits before a turn of its nodes: longer and longer as long as none of them makes an action, and
/// no longer than until another thread has made some. It spins and never gives the processor up: on busy cores it would get it
/// back milliseconds later, and then all others wait for it. Where the waits are too long for what all threads have made, it
/// gives the round up for all of them. Nothing of the answer rests on it.
#[derive(Drop)]
pub struct Patience<'r> {
    round: &'r Round,
    /// How many turns were without an action since the last one with some.
    idle: u32,
    /// How many spins were waited. A spin is the addition to this word, which takes nearly as long on all processors, while what a
    /// `spin_loop` takes differs by a factor of ten.
    spins: AtomicU64,
    /// How many actions this thread has made.
    own: u64,
    /// How many the others had made before its last turn.
    others: u64,
}

impl<'r> Patience<'r> {
    /// Nothing was waited for so far.
    pub fn new(round: &'r Round) -> Self {
        Patience {
            round,
            idle: 0,
            spins: AtomicU64::new(0),
            own: 0,
            others: 0,
        }
    }

    /// How many actions the other threads have made.
    fn made_by_others(&self) -> u64 {
        self.round.made().wrapping_sub(self.own)
    }

    /// Whether the waits are too long for what was made.
    fn is_lost(&self) -> bool {
        let spins = self.spins.load(Ordering::SeqCst);
        let threads = self.round.threads;
        spins > grace(threads).saturating_add(worth(self.round.made(), threads))
    }

    /// Whether a wait with so many looks is over.
    fn is_over(&self, looks: u32) -> bool {
        if self.is_lost() {
            self.round.end();
        }
        self.round.has_ended() || looks >= FIRST_LOOKS && self.made_by_others() != self.others
    }

    /// Spins until the wait is over, or for as long as the last turns without an action allow.
    fn spin(&self) {
        let longest = FIRST_LOOKS << self.idle.saturating_sub(1).min(DOUBLINGS);
        for looks in 1..=longest {
            for _ in 0..LOOK {
                self.spins.fetch_add(1, Ordering::SeqCst);
            }
            if self.is_over(looks) {
                break;
            }
        }
    }

    /// Waits before a turn, unless an action was made in the last one or a thread of the round has ended its bursts. It takes no
    /// memory.
    pub fn wait(&mut self) {
        if self.idle > 0 && !self.round.has_ended() {
            self.spin();
        }
        self.others = self.made_by_others();
    }

    /// Counts a turn, in which so many actions were made.
    pub fn count(&mut self, made: u64) {
        if made > 0 {
            self.round.made.fetch_add(made, Ordering::SeqCst);
            self.own = self.own.wrapping_add(made);
            self.idle = 0;
        } else {
            self.idle = self.idle.saturating_add(1);
        }
    }

    /// The thread has ended its bursts.
    pub fn end(&self) {
        self.round.end();
        let spins = self.spins.load(Ordering::SeqCst);
        self.round.waited.fetch_add(spins, Ordering::SeqCst);
    }
}

//! What waits and threads cost in rounds of bursts, and when rounds are given up. No answer rests on these numbers.
//!
//! Their units are spins, actions and turns: no thread reads a clock. A spin is an addition to an atomic word of the thread's own,
//! 6.4 ns on the four virtual cores of a Xeon at 2.7 GHz, where an action takes 2 to 18 ns. Where numbers are said to be as good
//! or worse, they were tried in a model of these crews in plain Rust, on designs of 400 to 60,000 cells on 4 to 16 chips; here
//! they were taken over by their times, as powers of two, and only the whole was measured.

/// In one burst each node that isn't done is refused so often: the most turns of a burst.
pub const REFUSALS: u32 = 256;

/// At most 2 to the power of so many threads work at the same time.
pub const TOP_LEVEL: u32 = 6;

/// So many spins lie between two looks at what other threads have done, so that looks seldom take a word of memory away from
/// threads that write to it.
pub const LOOK: u32 = 32;

/// The first wait between two turns, in looks, and the least one: a turn that comes sooner finds few words. It is 1.6 us; 4 us
/// are as good, and 0.3, 1, 8 and 16 us are worse.
pub const FIRST_LOOKS: u32 = 8;

/// Waits double so often at most, up to 1,024 looks, a fifth of a millisecond. News end a wait, so that long ones cost little
/// and use up no turns.
pub const DOUBLINGS: u32 = 7;

/// How many spins a thread may wait for nothing in one round, before all give it up, beside the time in which threads start. Three
/// times as much may be left to later rounds from good ones. It is four tenths of a millisecond.
pub const GRACE: u64 = 1 << 16;

/// How many spins a thread could make while it is started and joined: a tenth of a millisecond.
pub const FORK: u64 = 1 << 14;

/// How many actions the calling thread makes alone before fewer threads are tried: some 2 ms. So a short run has one lost
/// round, which on busy cores costs some milliseconds.
pub const REST: u64 = 1 << 19;

/// How many actions are made by fewer threads before more are tried again, the first time: 20 to 50 ms of one thread. After a
/// quarter of these, tries on busy cores took half of the time of runs.
pub const STRETCH: u64 = 1 << 23;

/// Stretches double so often at most.
pub const STRETCH_DOUBLINGS: u32 = 6;

/// After so many rounds in a row that are worth their threads, a stretch is halved again.
pub const GOOD_ROUNDS: u32 = 16;

/// How many spins of waits so many actions are worth to each of the threads that made them together. Where a thread alone
/// makes an action in the time of a spin, `threads - 1` of `threads` parts of that time are spared. On designs of 60,000 cells
/// an action takes a thread alone 10 to 18 ns, through the links, which is one or two spins. Half a spin gave rounds up that
/// were twice as fast as one thread.
pub fn worth(made: u64, threads: u64) -> u64 {
    made - made / threads.max(1)
}

/// How many spins a thread may wait in a round of so many threads before any action is made.
pub fn grace(threads: u64) -> u64 {
    GRACE.saturating_add(FORK.saturating_mul(threads))
}

//! That groups work at the same time.
use super::*;
use std::hint::spin_loop;
use std::sync::atomic::{AtomicBool, AtomicU64, Ordering};

/// A gate that holds the group that comes first until another one has come, or for ten million turns.
#[derive(Drop)]
struct HoldsFirst {
    /// A bit for each group that has come.
    come: AtomicU64,
    /// Whether nobody came in time.
    given_up: AtomicBool,
}

impl BurstGate for HoldsFirst {
    fn enter(&self, worker: u32) {
        let group = 1u64 << (worker % 64);
        if self.come.fetch_or(group, Ordering::SeqCst) != 0 {
            return;
        }
        for _ in 0..10_000_000u32 {
            if self.come.load(Ordering::SeqCst) != group {
                return;
            }
            spin_loop();
        }
        self.given_up.store(true, Ordering::SeqCst);
    }
}

/// Groups that run one after the other would never let the first one through.
#[test]
fn groups_work_at_the_same_time(rt: HostRuntime) -> Result<(), Fail> {
    let call = Call {
        words: &["run", "d", "b", "s", "plan=p", "workers=2"],
        texts: TOGGLE_TEXTS,
        most: MOST,
        fault: Fault::None,
    };
    let gate = HoldsFirst {
        come: AtomicU64::new(0),
        given_up: AtomicBool::new(false),
    };
    let mut links = Links::new(rt, true);
    let ended = carried_out_on(&rt, rt.alloc(), &call, &gate, &mut links)?;
    let wanted = End::done(TOGGLE_TRACE);
    has_ended(&ended, "a gate", wanted)?;
    assert!(rt; !gate.given_up.load(Ordering::SeqCst));
    assert_eq!(rt; gate.come.load(Ordering::SeqCst), 3);
    Ok(())
}

/// A gate that holds each group until all of three have come, or for ten million turns.
#[derive(Drop)]
struct HoldsAll {
    /// A bit for each group that has come.
    come: AtomicU64,
    /// Whether one of them didn't come in time.
    given_up: AtomicBool,
}

impl BurstGate for HoldsAll {
    fn enter(&self, worker: u32) {
        let group = 1u64 << (worker % 64);
        self.come.fetch_or(group, Ordering::SeqCst);
        for _ in 0..10_000_000u32 {
            if self.come.load(Ordering::SeqCst) == 0b111 {
                return;
            }
            spin_loop();
        }
        self.given_up.store(true, Ordering::SeqCst);
    }
}

/// Three groups on fewer than three threads would never come together.
#[test]
fn three_groups_wait_for_each_other(rt: HostRuntime) -> Result<(), Fail> {
    let call = Call {
        words: &["run", "d", "b", "s", "plan=p", "workers=3"],
        texts: TOGGLE_TEXTS,
        most: MOST,
        fault: Fault::None,
    };
    let gate = HoldsAll {
        come: AtomicU64::new(0),
        given_up: AtomicBool::new(false),
    };
    let mut links = Links::new(rt, true);
    let ended = carried_out_on(&rt, rt.alloc(), &call, &gate, &mut links)?;
    has_ended(&ended, "a gate", End::done(TOGGLE_TRACE))?;
    assert!(rt; !gate.given_up.load(Ordering::SeqCst));
    Ok(())
}

/// A gate that counts how often each of three groups comes. It holds the host for a million turns when that comes first, so
/// that the first round comes to little.
#[derive(Drop)]
struct Counts {
    /// Twenty bits for each group.
    come: AtomicU64,
}

impl BurstGate for Counts {
    fn enter(&self, worker: u32) {
        let group = worker % 3;
        let before = self.come.fetch_add(1u64 << (20 * group), Ordering::SeqCst);
        if group == 0 && before % (1 << 20) == 0 {
            for _ in 0..1_000_000u32 {
                spin_loop();
            }
        }
    }
}

/// The numbers of a gate that counts.
fn counts_of(gate: &Counts) -> [u64; 3] {
    let come = gate.come.load(Ordering::SeqCst);
    [come % (1 << 20), (come >> 20) % (1 << 20), come >> 40]
}

/// A chain of gates over two chips with room for these, and 256 rows.
fn long_chain<'x>(design: &'x str) -> [(&'x str, &'x str); 3] {
    [
        ("d", design),
        (
            "b",
            "board 1\nchips 2\ncells 4000\nsettle 0\npins 4\nlink 0 1 1\nlink 0 2 1\nlink 1 0 1\nlink 1 2 1\nlink 2 0 1\nlink 2 1 1\n",
        ),
        ("s", "hold 256\n"),
    ]
}

/// How often each group comes to its gate in a run of a chain of 8,000 gates, over one batch.
fn rounds_of<R: Threads + Wait + Copy + Send + Sync>(
    rt: &R,
    alloc: Global,
) -> Result<[u64; 3], Fail> {
    const CHAIN_OF_GATES: &[Piece] = &[
        (1, ".model m\n.inputs n0\n.outputs n8000\n"),
        (8000, ".names n# n+\n1 1\n"),
    ];
    let design = spelled(alloc, CHAIN_OF_GATES)?;
    let texts = long_chain(design.as_str());
    let call = Call {
        words: &["run", "d", "b", "s", "workers=3"],
        texts: &texts,
        most: 65_536,
        fault: Fault::None,
    };
    let gate = Counts {
        come: AtomicU64::new(0),
    };
    let mut links = Links::new(*rt, false);
    let ended = carried_out_on(rt, alloc, &call, &gate, &mut links)?;
    is_status(ended.status, 0, "a long chain")?;
    Ok(counts_of(&gate))
}

/// One batch has several rounds where it is long and its first rounds aren't worth their threads, and before each of its
/// bursts each group comes to the gate.
#[test]
fn groups_come_to_the_gate_in_each_round(rt: HostRuntime) -> Result<(), Fail> {
    let [host, one, other] = rounds_of(&rt, rt.alloc())?;
    assert!(&rt; 2 <= host);
    assert_eq!(&rt; (one, other), (host, host));
    Ok(())
}

/// A gate that lets all through, and keeps which groups have come.
#[derive(Drop)]
struct Seen {
    /// A bit for each group that has come.
    come: AtomicU64,
}

impl BurstGate for Seen {
    fn enter(&self, worker: u32) {
        let group = 1u64 << (worker % 64);
        self.come.fetch_or(group, Ordering::SeqCst);
    }
}

/// Which groups come to the gate in a call with these words over these texts, a bit for each.
fn groups_of<R: Threads + Wait + Copy + Send + Sync>(
    rt: &R,
    alloc: Global,
    words: &[&str],
    texts: &[(&str, &str)],
) -> Result<u64, Fail> {
    let call = Call {
        words,
        texts,
        most: MOST,
        fault: Fault::None,
    };
    let gate = Seen {
        come: AtomicU64::new(0),
    };
    let mut links = Links::new(*rt, false);
    let ended = carried_out_on(rt, alloc, &call, &gate, &mut links)?;
    is_status(ended.status, 0, words.last().copied().unwrap_or("no words"))?;
    Ok(gate.come.load(Ordering::SeqCst))
}

/// Asserts which groups come to the gate in calls over these texts.
fn have_groups<R: Threads + Wait + Copy + Send + Sync + Abort>(
    rt: &R,
    alloc: Global,
    texts: &[(&str, &str)],
    table: &[(&[&str], u64)],
) -> Result<(), Fail> {
    for (words, wanted) in table {
        let found = groups_of(rt, alloc, words, texts)?;
        assert_eq!(rt; found, *wanted, "{words:?}");
    }
    Ok(())
}

/// The toggle on three nodes, with its plan, a state of it, and rows.
const THREE_NODES: &[(&str, &str)] = &[
    ("d", TOGGLE),
    ("b", TRIANGLE),
    ("p", TOGGLE_PLAN),
    ("t", "state 1 3 1 0\n"),
    ("s", TOGGLE_ROWS),
];

/// Of three nodes each is a group of its own, however many workers there are above three; one worker comes to no gate.
#[test]
fn there_are_as_many_groups_as_workers_or_nodes(rt: HostRuntime) -> Result<(), Fail> {
    const TABLE: &[(&[&str], u64)] = &[
        (&["run", "d", "b", "s", "plan=p", "workers=1"], 0),
        (&["run", "d", "b", "s", "plan=p", "workers=2"], 0b11),
        (&["run", "d", "b", "s", "plan=p", "workers=3"], 0b111),
        (&["run", "d", "b", "s", "plan=p", "workers=64"], 0b111),
        (&["run", "d", "b", "s", "workers=3"], 0b111),
        (&["save", "d", "b", "s", "workers=1"], 0),
        (&["save", "d", "b", "s", "workers=2"], 0b11),
        (&["save", "d", "b", "s", "workers=3"], 0b111),
        (&["resume", "d", "b", "t", "s", "workers=1"], 0),
        (&["resume", "d", "b", "t", "s", "workers=2"], 0b11),
        (&["resume", "d", "b", "t", "s", "workers=3"], 0b111),
    ];
    have_groups(&rt, rt.alloc(), THREE_NODES, TABLE)
}

/// A host and sixteen chips, each joined to the host both ways, and the one gate of the design on the first of them.
const SEVENTEEN_NODES: &[(&str, &str)] = &[
    ("d", AND),
    (
        "b",
        "board 1\nchips 16\ncells 1\nsettle 0\npins 64\n\
         link 0 1 1\nlink 1 0 1\nlink 0 2 1\nlink 2 0 1\nlink 0 3 1\nlink 3 0 1\nlink 0 4 1\nlink 4 0 1\n\
         link 0 5 1\nlink 5 0 1\nlink 0 6 1\nlink 6 0 1\nlink 0 7 1\nlink 7 0 1\nlink 0 8 1\nlink 8 0 1\n\
         link 0 9 1\nlink 9 0 1\nlink 0 10 1\nlink 10 0 1\nlink 0 11 1\nlink 11 0 1\nlink 0 12 1\nlink 12 0 1\n\
         link 0 13 1\nlink 13 0 1\nlink 0 14 1\nlink 14 0 1\nlink 0 15 1\nlink 15 0 1\nlink 0 16 1\nlink 16 0 1\n",
    ),
    ("t", "state 1 0 0 -\n"),
    ("s", "11\n10\n"),
];

/// Where no word says how many workers there are, there are four; and seventeen nodes may be in seventeen groups.
#[test]
fn there_may_be_many_groups_and_four_where_no_word_says(rt: HostRuntime) -> Result<(), Fail> {
    const TABLE: &[(&[&str], u64)] = &[
        (&["run", "d", "b", "s"], 0b1111),
        (&["run", "d", "b", "s", "workers=17"], 0x1_ffff),
        (&["run", "d", "b", "s", "workers=64"], 0x1_ffff),
        (&["save", "d", "b", "s"], 0b1111),
        (&["save", "d", "b", "s", "workers=17"], 0x1_ffff),
        (&["resume", "d", "b", "t", "s"], 0b1111),
        (&["resume", "d", "b", "t", "s", "workers=17"], 0x1_ffff),
    ];
    have_groups(&rt, rt.alloc(), SEVENTEEN_NODES, TABLE)
}

/// The board of a demo has sixteen chips.
#[test]
fn a_demo_has_as_many_groups(rt: HostRuntime) -> Result<(), Fail> {
    const TABLE: &[(&[&str], u64)] = &[
        (&["demo", "100", "workers=1"], 0),
        (&["demo", "100", "workers=3"], 0b111),
        (&["demo", "100"], 0b1111),
        (&["demo", "100", "workers=17"], 0x1_ffff),
        (&["demo", "100", "workers=64"], 0x1_ffff),
    ];
    have_groups(&rt, rt.alloc(), &[], TABLE)
}

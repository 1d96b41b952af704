//! States that are kept on the way, and resumed runs that watch nets.
use super::cuts::{cut, first_piece, joined, later_piece, simulated_with};
use super::*;

/// The toggle on the triangle, with its plan and three rows; no row; and a state of it.
const KEPT_TEXTS: &[(&str, &str)] = &[
    ("d", TOGGLE),
    ("b", TRIANGLE),
    ("p", TOGGLE_PLAN),
    ("s", "1\n1\n0\n"),
    ("e", ""),
    ("t", STATE),
    ("r", LATER),
];

#[test]
fn a_state_is_kept_for_each_so_many_clocks_and_the_end(rt: HostRuntime) -> Result<(), Fail> {
    const TABLE: &[(&[&str], &str)] = &[
        (
            &["save", "d", "b", "s", "every=1"],
            "state 1 1 1 1\nstate 1 2 1 0\nstate 1 3 1 0\n",
        ),
        (
            &["save", "d", "b", "s", "plan=p", "every=2", "workers=1"],
            "state 1 2 1 0\nstate 1 3 1 0\n",
        ),
        (
            &["save", "d", "b", "s", "workers=3", "every=3"],
            "state 1 3 1 0\n",
        ),
        (
            &["save", "d", "b", "s", "every=4", "workers=1"],
            "state 1 3 1 0\n",
        ),
        (
            &["save", "d", "b", "s", "every=4294967295"],
            "state 1 3 1 0\n",
        ),
        (&["save", "d", "b", "e", "every=1"], "state 1 0 1 0\n"),
    ];
    let alloc = rt.alloc();
    for (words, text) in TABLE {
        all_end_on(
            &rt,
            alloc,
            &[words],
            KEPT_TEXTS,
            Fault::None,
            End::done(text),
        )?;
    }
    Ok(())
}

#[test]
fn other_numbers_of_clocks_are_wrong_words(rt: HostRuntime) -> Result<(), Fail> {
    const WORDS: [&[&str]; 5] = [
        &["save", "d", "b", "s", "every=0"],
        &["save", "d", "b", "s", "every=4294967296"],
        &["save", "d", "b", "s", "every=01"],
        &["save", "d", "b", "s", "every="],
        &["run", "d", "b", "s", "every=1"],
    ];
    const TWICE: [&[&str]; 1] = [&["save", "d", "b", "s", "every=1", "every=1"]];
    let alloc = rt.alloc();
    let fifth = End::refused(2, "usage: word 5\n");
    all_end_on(&rt, alloc, &WORDS, KEPT_TEXTS, Fault::None, fifth)?;
    let sixth = End::refused(2, "usage: word 6\n");
    all_end_on(&rt, alloc, &TWICE, KEPT_TEXTS, Fault::None, sixth)
}

/// A batch's states are one write, and that of the end is another. The third read of the stimulus is the one that gives rows.
#[test]
fn a_stop_leaves_a_front_of_the_states(rt: HostRuntime) -> Result<(), Fail> {
    const WORDS: [&[&str]; 2] = [
        &["save", "d", "b", "s", "every=1", "workers=1"],
        &["save", "d", "b", "s", "every=1", "workers=3"],
    ];
    let alloc = rt.alloc();
    let first = End::refused(8, "write fault\n");
    all_end_on(&rt, alloc, &WORDS, KEPT_TEXTS, Fault::Write(1), first)?;
    let last = End {
        status: 8,
        out: "state 1 1 1 1\nstate 1 2 1 0\n",
        err: "write fault\n",
    };
    all_end_on(&rt, alloc, &WORDS, KEPT_TEXTS, Fault::Write(2), last)?;
    let unread = End::refused(7, "read fault: stimulus\n");
    all_end_on(&rt, alloc, &WORDS, KEPT_TEXTS, Fault::Read(8), unread)
}

/// What `save` writes of a design on the first board, by these words.
fn saved<R: Threads + Wait + Copy + Send + Sync>(
    rt: &R,
    alloc: Global,
    design: &str,
    rows: &str,
    words: &[&str],
) -> Result<String, Fail> {
    let texts = first_piece(design, rows);
    written_on(rt, alloc, words, &texts)
}

/// What `save` writes of it without a setting for it.
fn saved_alone<R: Threads + Wait + Copy + Send + Sync>(
    rt: &R,
    alloc: Global,
    design: &str,
    rows: &str,
) -> Result<String, Fail> {
    saved(
        rt,
        alloc,
        design,
        rows,
        &["save", "d", "b", "s", "workers=1"],
    )
}

/// Fails unless these words write what is saved of so many first rows, one behind the other, and of all rows.
fn lines_are_saved<R: Threads + Wait + Copy + Send + Sync>(
    rt: &R,
    alloc: Global,
    places: &[u32],
    words: &[&str],
) -> Result<(), Fail> {
    let (design, rows) = demonstrated(alloc, 100)?;
    let mut wanted = String::new(alloc);
    for place in places {
        let (front, _) = cut(alloc, rows.as_str(), *place)?;
        let line = saved_alone(rt, alloc, design.as_str(), front.as_str())?;
        wanted.push_str(line.as_str())?;
    }
    let line = saved_alone(rt, alloc, design.as_str(), rows.as_str())?;
    wanted.push_str(line.as_str())?;
    let found = saved(rt, alloc, design.as_str(), rows.as_str(), words)?;
    are_found(found.as_bytes(), wanted.as_bytes(), "lines")
}

/// Inside a batch of 256 rows, at its edge and beside it; there are 300 rows.
#[test]
fn each_line_is_what_is_saved_of_the_rows_before_it(rt: HostRuntime) -> Result<(), Fail> {
    const WORDS: [&[&str]; 4] = [
        &["save", "d", "b", "s", "workers=1", "every=97"],
        &["save", "d", "b", "s", "workers=3", "every=255"],
        &["save", "d", "b", "s", "workers=1", "every=256"],
        &["save", "d", "b", "s", "workers=3", "every=257"],
    ];
    let alloc = rt.alloc();
    lines_are_saved(&rt, alloc, &[97, 194, 291], WORDS[0])?;
    lines_are_saved(&rt, alloc, &[255], WORDS[1])?;
    lines_are_saved(&rt, alloc, &[256], WORDS[2])?;
    lines_are_saved(&rt, alloc, &[257], WORDS[3])
}

#[test]
fn a_resumed_run_watches_nets(rt: HostRuntime) -> Result<(), Fail> {
    const WORDS: [&[&str]; 3] = [
        &["resume", "d", "b", "t", "r", "probe=d", "workers=1"],
        &["resume", "d", "b", "t", "r", "probe=d", "workers=2"],
        &[
            "resume",
            "d",
            "b",
            "t",
            "r",
            "unknown=1",
            "probe=d",
            "workers=3",
        ],
    ];
    let alloc = rt.alloc();
    let wanted = End::done("trace 2 1 1 1\n1 10 1\n2 00 0\nend 3 0\n");
    all_end_on(&rt, alloc, &WORDS, KEPT_TEXTS, Fault::None, wanted)?;
    const NONE: [&[&str]; 1] = [&["resume", "d", "b", "t", "r", "probe=x"]];
    let none = End::refused(1, "design 26: no net x\n");
    all_end_on(&rt, alloc, &NONE, KEPT_TEXTS, Fault::None, none)
}

/// The watched trace of a run on the first board, and the state after it.
fn watched_first<R: Threads + Wait + Copy + Send + Sync>(
    rt: &R,
    alloc: Global,
    design: &str,
    rows: &str,
) -> Result<(String, String), Fail> {
    const RUN: &[&str] = &["run", "d", "b", "s", "probe=c40", "workers=1"];
    let texts = first_piece(design, rows);
    let trace = written_on(rt, alloc, RUN, &texts)?;
    let state = written_on(rt, alloc, &["save", "d", "b", "s", "workers=1"], &texts)?;
    Ok((trace, state))
}

/// The watched trace of the run on the second board that goes on from a state.
fn watched_rest<R: Threads + Wait + Copy + Send + Sync>(
    rt: &R,
    alloc: Global,
    design: &str,
    state: &str,
    rows: &str,
) -> Result<String, Fail> {
    const RESUME: &[&str] = &["resume", "d", "b", "t", "s", "probe=c40", "workers=3"];
    let texts = later_piece(design, state, rows);
    written_on(rt, alloc, RESUME, &texts)
}

/// A trace with a probe is joined of a run and a resumption with that probe, wherever it is cut.
fn watched_pieces_join<R: Threads + Wait + Copy + Send + Sync>(
    rt: &R,
    alloc: Global,
    place: u32,
) -> Result<(), Fail> {
    let (design, rows) = demonstrated(alloc, 100)?;
    let (first, later) = cut(alloc, rows.as_str(), place)?;
    let whole = simulated_with(
        rt,
        alloc,
        design.as_str(),
        rows.as_str(),
        &["sim", "d", "s", "probe=c40"],
    )?;
    let (trace, state) = watched_first(rt, alloc, design.as_str(), first.as_str())?;
    let rest = watched_rest(rt, alloc, design.as_str(), state.as_str(), later.as_str())?;
    let text = joined(alloc, trace.as_str(), rest.as_str())?;
    are_found(text.as_bytes(), whole.as_bytes(), "joined")
}

#[test]
fn watched_pieces_join_wherever_a_run_is_cut(rt: HostRuntime) -> Result<(), Fail> {
    for place in [0, 1, 255, 256, 257, 300] {
        watched_pieces_join(&rt, rt.alloc(), place)?;
    }
    Ok(())
}

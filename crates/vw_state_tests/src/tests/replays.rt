//! Replays: designs that go on from a state over the rows from its clock on.
use super::cuts::{cut, first_piece, joined, lines_of, simulated_with};
use super::*;

/// The toggle with three rows, and states of it at each clock, behind the last one, and of other designs.
const REPLAYED: &[(&str, &str)] = &[
    ("d", TOGGLE),
    ("s", "1\n1\n0\n"),
    ("t0", "state 1 0 1 0\n"),
    ("t1", STATE),
    ("t2", "state 1 2 1 0\n"),
    ("t3", "state 1 3 1 0\n"),
    ("t4", "state 1 4 1 0\n"),
    ("bad", "state 1 1 1 1"),
    ("two", "state 1 1 2 10\n"),
    ("x", "11\n"),
];

#[test]
fn a_replay_goes_on_over_the_rows_from_its_clock_on(rt: HostRuntime) -> Result<(), Fail> {
    const TABLE: &[(&[&str], &str)] = &[
        (
            &["sim", "d", "s", "replay=t0"],
            "trace 1 1 1\n0 0 0\n1 1 1\n2 0 0\nend 3 0\n",
        ),
        (
            &["sim", "d", "s", "replay=t1"],
            "trace 1 1 1\n1 1 1\n2 0 0\nend 3 0\n",
        ),
        (
            &["sim", "d", "s", "replay=t2"],
            "trace 1 1 1\n2 0 0\nend 3 0\n",
        ),
        (&["sim", "d", "s", "replay=t3"], "trace 1 1 1\nend 3 0\n"),
        // latches start as the state has them
        (
            &["sim", "d", "s", "unknown=1", "replay=t2"],
            "trace 1 1 1\n2 0 0\nend 3 0\n",
        ),
        (
            &["sim", "d", "s", "probe=d", "replay=t1"],
            "trace 2 1 1 1\n1 10 1\n2 00 0\nend 3 0\n",
        ),
    ];
    let alloc = rt.alloc();
    for (words, text) in TABLE {
        ends_on(&rt, alloc, words, REPLAYED, Fault::None, End::done(text))?;
    }
    Ok(())
}

#[test]
fn a_wave_from_a_state_on_begins_at_its_clock(rt: HostRuntime) -> Result<(), Fail> {
    const FROM_1: &str =
        "$timescale 1 s $end\n$scope module design $end\n$var wire 1 ! n_q $end\n$var wire 1 \" n_q $end\n$upscope $end\n$enddefinitions $end\n#1\n$dumpvars\n1!\n1\"\n$end\n#2\n0!\n0\"\n#3\n";
    const WATCHED: &str =
        "$timescale 1 s $end\n$scope module design $end\n$var wire 1 ! n_q $end\n$var wire 1 \" n_d $end\n$var wire 1 # n_q $end\n$upscope $end\n$enddefinitions $end\n#2\n$dumpvars\n0!\n0\"\n0#\n$end\n#3\n";
    const FROM_3: &str =
        "$timescale 1 s $end\n$scope module design $end\n$var wire 1 ! n_q $end\n$var wire 1 \" n_q $end\n$upscope $end\n$enddefinitions $end\n#3\n";
    let alloc = rt.alloc();
    let whole = written_on(&rt, alloc, &["wave", "d", "s"], REPLAYED)?;
    let table: [(&[&str], &str); 4] = [
        (&["wave", "d", "s", "replay=t0"], whole.as_str()),
        (&["wave", "d", "s", "replay=t1"], FROM_1),
        (&["wave", "d", "s", "probe=d", "replay=t2"], WATCHED),
        (&["wave", "d", "s", "replay=t3"], FROM_3),
    ];
    for (words, text) in &table {
        ends_on(&rt, alloc, words, REPLAYED, Fault::None, End::done(text))?;
    }
    Ok(())
}

/// What is wrong with the design comes before what is wrong with the state, then comes the stimulus, and at last its length.
#[test]
fn replays_are_refused_in_the_order_of_their_files(rt: HostRuntime) -> Result<(), Fail> {
    const TABLE: &[(&str, &str, &str, u8, &str)] = &[
        ("x", "x", "replay=bad", 1, "design 2: line 1: no model\n"),
        ("n", "x", "replay=bad", 7, "read fault: design\n"),
        ("d", "x", "replay=bad", 11, "state 1: bad text\n"),
        ("d", "x", "replay=n", 7, "read fault: state\n"),
        ("d", "x", "replay=two", 11, "state 2: 2 latches, wanted 1\n"),
        (
            "d",
            "x",
            "replay=t4",
            5,
            "stimulus 3: line 1: found 2 bits, wanted 1\n",
        ),
        ("d", "n", "replay=t4", 7, "read fault: stimulus\n"),
        ("d", "s", "replay=t4", 11, "state 3: 3 clocks, wanted 4\n"),
        ("d", "s", "replay=", 2, "usage: word 4\n"),
    ];
    let alloc = rt.alloc();
    for verb in ["sim", "wave"] {
        for (design, stimulus, replay, status, line) in TABLE {
            let words = [verb, *design, *stimulus, *replay];
            let end = End::refused(*status, line);
            ends_on(&rt, alloc, &words, REPLAYED, Fault::None, end)?;
        }
    }
    Ok(())
}

#[test]
fn other_words_spell_no_replay(rt: HostRuntime) -> Result<(), Fail> {
    const WORDS: [&[&str]; 3] = [
        &["nets", "d", "replay=t1", "s"],
        &["run", "d", "b", "s", "replay=t1"],
        &["sim", "d", "s", "replay=t1", "replay=t1"],
    ];
    const LINES: [&str; 3] = ["usage: word 3\n", "usage: word 5\n", "usage: word 5\n"];
    let alloc = rt.alloc();
    for (words, line) in WORDS.iter().zip(&LINES) {
        let end = End::refused(2, line);
        ends_on(&rt, alloc, words, REPLAYED, Fault::None, end)?;
    }
    Ok(())
}

/// The texts of a generated design, its rows, and a state of it.
fn with_state<'x>(design: &'x str, rows: &'x str, state: &'x str) -> [(&'x str, &'x str); 3] {
    [("d", design), ("s", rows), ("t", state)]
}

/// The state of a generated design behind its first rows, by so many workers.
fn state_behind<R: Threads + Wait + Copy + Send + Sync>(
    rt: &R,
    alloc: Global,
    design: &str,
    rows: &str,
    workers: &str,
) -> Result<String, Fail> {
    let texts = first_piece(design, rows);
    written_on(rt, alloc, &["save", "d", "b", "s", workers], &texts)
}

/// What such words write of a generated design from a state on.
fn replayed_with<R: Threads + Wait + Copy + Send + Sync>(
    rt: &R,
    alloc: Global,
    design: &str,
    rows: &str,
    state: &str,
    words: &[&str],
) -> Result<String, Fail> {
    let texts = with_state(design, rows, state);
    written_on(rt, alloc, words, &texts)
}

/// Fails unless the trace of the first rows, joined with the replay of all, is the trace of all.
fn traces_join_at<R: Threads + Wait + Copy + Send + Sync>(
    rt: &R,
    alloc: Global,
    design: &str,
    rows: &str,
    whole: &str,
    place: u32,
) -> Result<(), Fail> {
    const REPLAY: &[&str] = &["sim", "d", "s", "replay=t", "probe=c40"];
    const WATCHED: &[&str] = &["sim", "d", "s", "probe=c40"];
    let (first, _) = cut(alloc, rows, place)?;
    let state = state_behind(rt, alloc, design, first.as_str(), "workers=3")?;
    let front = simulated_with(rt, alloc, design, first.as_str(), WATCHED)?;
    let rest = replayed_with(rt, alloc, design, rows, state.as_str(), REPLAY)?;
    let all = joined(alloc, front.as_str(), rest.as_str())?;
    are_found(all.as_bytes(), whole.as_bytes(), first.as_str())
}

/// At the ends, at the edge of a batch of 256 rows and beside it.
#[test]
fn a_replay_is_the_tail_of_the_whole_trace(rt: HostRuntime) -> Result<(), Fail> {
    let alloc = rt.alloc();
    let (design, rows) = demonstrated(alloc, 100)?;
    let (design, rows) = (design.as_str(), rows.as_str());
    let whole = simulated_with(&rt, alloc, design, rows, &["sim", "d", "s", "probe=c40"])?;
    for place in [0, 1, 255, 256, 257, 300] {
        traces_join_at(&rt, alloc, design, rows, whole.as_str(), place)?;
    }
    Ok(())
}

const REPLAY_WAVE: &[&str] = &["wave", "d", "s", "replay=t"];

/// The wave of a generated design from the state behind its first rows on.
fn wave_at<R: Threads + Wait + Copy + Send + Sync>(
    rt: &R,
    alloc: Global,
    design: &str,
    rows: &str,
    place: u32,
) -> Result<String, Fail> {
    let (first, _) = cut(alloc, rows, place)?;
    let state = state_behind(rt, alloc, design, first.as_str(), "workers=1")?;
    replayed_with(rt, alloc, design, rows, state.as_str(), REPLAY_WAVE)
}

/// Fails unless the wave from a clock on ends as the whole one, behind its head of so many lines and its block of first values.
fn wave_ends_as<R: Threads + Wait + Copy + Send + Sync>(
    rt: &R,
    alloc: Global,
    design: &str,
    rows: &str,
    whole: &str,
    head: u32,
    place: u32,
) -> Result<(), Fail> {
    let wave = wave_at(rt, alloc, design, rows, place)?;
    let block = head.saturating_sub(1);
    let (_, tail) = cut(alloc, wave.as_str(), head.saturating_add(block))?;
    if tail.is_empty() || !whole.ends_with(tail.as_str()) {
        return Err(Fail::new(format_args!("clock {place}: another tail")));
    }
    Ok(())
}

/// A head has four lines and one for each signal, and the block of first values has three and one for each signal.
#[test]
fn a_wave_from_a_state_on_ends_as_the_whole_one(rt: HostRuntime) -> Result<(), Fail> {
    let alloc = rt.alloc();
    let (design, rows) = demonstrated(alloc, 100)?;
    let (design, rows) = (design.as_str(), rows.as_str());
    let whole = simulated_with(&rt, alloc, design, rows, &["wave", "d", "s"])?;
    let last = wave_at(&rt, alloc, design, rows, 300)?;
    if !last.ends_with("$enddefinitions $end\n#300\n") {
        return Err("another wave of no clock".into());
    }
    let head = lines_of(last.as_str()).saturating_sub(1);
    for place in [0, 1, 255, 256, 257] {
        wave_ends_as(&rt, alloc, design, rows, whole.as_str(), head, place)?;
    }
    Ok(())
}

/// Two reads of the design, two of the state, three that check the stimulus, and two that read its rows again: the first row is
/// passed over before anything is written.
#[test]
fn faults_of_a_replay_leave_nothing_before_its_clock(rt: HostRuntime) -> Result<(), Fail> {
    const WORDS: [&[&str]; 2] = [
        &["sim", "d", "s", "replay=t1"],
        &["wave", "d", "s", "replay=t1"],
    ];
    const STAGES: &[(u64, &str)] = &[
        (2, "read fault: design\n"),
        (4, "read fault: state\n"),
        (8, "read fault: stimulus\n"),
    ];
    let alloc = rt.alloc();
    for number in 1..9u64 {
        let end = End::refused(7, line_of_read(STAGES, number));
        all_end_on(&rt, alloc, &WORDS, REPLAYED, Fault::Read(number), end)?;
    }
    let again = End {
        status: 7,
        out: "trace 1 1 1\n",
        err: "read fault: stimulus\n",
    };
    ends_on(&rt, alloc, WORDS[0], REPLAYED, Fault::Read(9), again)?;
    let done = End::done("trace 1 1 1\n1 1 1\n2 0 0\nend 3 0\n");
    ends_on(&rt, alloc, WORDS[0], REPLAYED, Fault::Read(10), done)?;
    let end = End::refused(8, "write fault\n");
    all_end_on(&rt, alloc, &WORDS, REPLAYED, Fault::Write(1), end)?;
    let front = End {
        status: 8,
        out: "trace 1 1 1\n",
        err: "write fault\n",
    };
    ends_on(&rt, alloc, WORDS[0], REPLAYED, Fault::Write(2), front)
}

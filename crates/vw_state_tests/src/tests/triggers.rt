//! Triggers: runs that end behind the first clock in which a net is 1.
use super::cuts::{cut, first_piece, lines_of, simulated_with};
use super::*;

/// The toggle on the triangle, with three rows and rows without a one; its states; and texts of no design and no rows.
const TRIGGERED: &[(&str, &str)] = &[
    ("d", TOGGLE),
    ("b", TRIANGLE),
    ("s", "1\n1\n0\n"),
    ("z", "0\n0\n"),
    ("l", "0\n1\n"),
    ("e", ""),
    ("w", "1\n11\n"),
    ("t1", STATE),
    ("t2", "state 1 2 1 0\n"),
    ("r", LATER),
    ("x", "11\n"),
];

const FIRST: &str = "trace 1 1 1\n0 0 0\nend 1 1\n";

const SECOND: &str = "trace 1 1 1\n0 0 0\n1 1 1\nend 2 0\n";

#[test]
fn a_trace_ends_behind_the_first_clock_of_its_trigger(rt: HostRuntime) -> Result<(), Fail> {
    const TABLE: &[(&[&str], &str)] = &[
        (&["sim", "d", "s", "until=d"], FIRST),
        (&["sim", "d", "s", "until=q"], SECOND),
        (&["run", "d", "b", "s", "until=d", "workers=1"], FIRST),
        (&["run", "d", "b", "s", "until=q", "workers=1"], SECOND),
        (&["run", "d", "b", "s", "until=q", "workers=3"], SECOND),
        // in the last clock, never, and over no row
        (
            &["sim", "d", "l", "until=d"],
            "trace 1 1 1\n0 0 0\n1 0 0\nend 2 1\n",
        ),
        (
            &["run", "d", "b", "l", "until=d", "workers=3"],
            "trace 1 1 1\n0 0 0\n1 0 0\nend 2 1\n",
        ),
        (
            &["sim", "d", "z", "until=q"],
            "trace 1 1 1\n0 0 0\n1 0 0\nend 2 0\n",
        ),
        (
            &["run", "d", "b", "z", "until=q", "workers=2"],
            "trace 1 1 1\n0 0 0\n1 0 0\nend 2 0\n",
        ),
        (&["sim", "d", "e", "until=q"], "trace 1 1 1\nend 0 0\n"),
        // beside probes, of which it isn't one, even where it is named as one
        (
            &["sim", "d", "s", "until=q", "probe=d"],
            "trace 2 1 1 1\n0 01 0\n1 10 1\nend 2 0\n",
        ),
        (
            &["sim", "d", "s", "probe=q", "until=q", "unknown=1"],
            "trace 2 1 1 1\n0 00 0\n1 11 1\nend 2 0\n",
        ),
        // from a state on
        (
            &["sim", "d", "s", "replay=t1", "until=q"],
            "trace 1 1 1\n1 1 1\nend 2 0\n",
        ),
        (
            &["sim", "d", "s", "until=q", "replay=t2"],
            "trace 1 1 1\n2 0 0\nend 3 0\n",
        ),
        (
            &["resume", "d", "b", "t1", "r", "until=q", "workers=1"],
            "trace 1 1 1\n1 1 1\nend 2 0\n",
        ),
        (
            &[
                "resume",
                "d",
                "b",
                "t1",
                "r",
                "until=d",
                "workers=3",
                "probe=q",
            ],
            "trace 2 1 1 1\n1 11 1\n2 00 0\nend 3 0\n",
        ),
        // and states
        (
            &["save", "d", "b", "s", "until=q", "workers=1"],
            "state 1 2 1 0\n",
        ),
        (
            &["save", "d", "b", "s", "until=d", "workers=3"],
            "state 1 1 1 1\n",
        ),
        (
            &["save", "d", "b", "s", "every=1", "until=q"],
            "state 1 1 1 1\nstate 1 2 1 0\n",
        ),
        (
            &["save", "d", "b", "z", "every=2", "until=q"],
            "state 1 2 1 0\n",
        ),
    ];
    let alloc = rt.alloc();
    for (words, text) in TABLE {
        ends_on(&rt, alloc, words, TRIGGERED, Fault::None, End::done(text))?;
    }
    Ok(())
}

#[test]
fn a_wave_ends_behind_the_first_clock_of_its_trigger(rt: HostRuntime) -> Result<(), Fail> {
    const TABLE: &[(&[&str], &str)] = &[
        (
            &["wave", "d", "s", "until=d"],
            "$timescale 1 s $end\n$scope module design $end\n$var wire 1 ! n_q $end\n$var wire 1 \" n_q $end\n$upscope $end\n$enddefinitions $end\n#0\n$dumpvars\n0!\n0\"\n$end\n#1\n",
        ),
        (
            &["wave", "d", "s", "until=q", "replay=t1"],
            "$timescale 1 s $end\n$scope module design $end\n$var wire 1 ! n_q $end\n$var wire 1 \" n_q $end\n$upscope $end\n$enddefinitions $end\n#1\n$dumpvars\n1!\n1\"\n$end\n#2\n",
        ),
    ];
    let alloc = rt.alloc();
    for (words, text) in TABLE {
        ends_on(&rt, alloc, words, TRIGGERED, Fault::None, End::done(text))?;
    }
    Ok(())
}

/// A trigger without a net comes behind a probe without one, and before what is wrong with all other files. Rows behind the clock
/// in which it is 1 are checked, too.
#[test]
fn triggers_are_refused_behind_probes(rt: HostRuntime) -> Result<(), Fail> {
    const TABLE: &[(&[&str], u8, &str)] = &[
        (&["sim", "d", "x", "until=n"], 1, "design 26: no net n\n"),
        (
            &["sim", "d", "x", "until=n", "probe=m"],
            1,
            "design 26: no net m\n",
        ),
        (&["wave", "d", "x", "until=n"], 1, "design 26: no net n\n"),
        (
            &["run", "d", "x", "x", "until=n"],
            1,
            "design 26: no net n\n",
        ),
        (
            &["save", "d", "x", "x", "until=n"],
            1,
            "design 26: no net n\n",
        ),
        (
            &["resume", "d", "x", "x", "x", "until=n"],
            1,
            "design 26: no net n\n",
        ),
        (
            &["sim", "d", "w", "until=d"],
            5,
            "stimulus 3: line 2: found 2 bits, wanted 1\n",
        ),
        (&["sim", "d", "s", "until="], 2, "usage: word 4\n"),
        (
            &["sim", "d", "s", "until=q", "until=q"],
            2,
            "usage: word 5\n",
        ),
        (&["nets", "d", "until=q"], 2, "usage: word 3\n"),
        (&["grade", "d", "s", "until=q"], 2, "usage: word 4\n"),
    ];
    let alloc = rt.alloc();
    for (words, status, line) in TABLE {
        let end = End::refused(*status, line);
        ends_on(&rt, alloc, words, TRIGGERED, Fault::None, end)?;
    }
    Ok(())
}

/// The first line is one write, and the batch with what follows it are two more. Behind it nothing is read.
#[test]
fn a_stop_leaves_a_front_of_a_triggered_trace(rt: HostRuntime) -> Result<(), Fail> {
    const WORDS: [&[&str]; 3] = [
        &["sim", "d", "s", "until=q"],
        &["run", "d", "b", "s", "until=q", "workers=1"],
        &["run", "d", "b", "s", "until=q", "workers=3"],
    ];
    const FRONTS: [&str; 3] = ["", "trace 1 1 1\n", "trace 1 1 1\n0 0 0\n1 1 1\n"];
    let alloc = rt.alloc();
    for (number, out) in (1..4u64).zip(FRONTS) {
        let end = End {
            status: 8,
            out,
            err: "write fault\n",
        };
        all_end_on(&rt, alloc, &WORDS, TRIGGERED, Fault::Write(number), end)?;
    }
    all_end_on(
        &rt,
        alloc,
        &WORDS,
        TRIGGERED,
        Fault::Write(4),
        End::done(SECOND),
    )?;
    let unread = End {
        status: 7,
        out: "trace 1 1 1\n",
        err: "read fault: stimulus\n",
    };
    ends_on(&rt, alloc, WORDS[0], TRIGGERED, Fault::Read(6), unread)?;
    ends_on(
        &rt,
        alloc,
        WORDS[0],
        TRIGGERED,
        Fault::Read(7),
        End::done(SECOND),
    )
}

/// Rows of the toggle of which the last but two has its first one: in that clock its input and the net d are 1.
fn rows_with_one(alloc: Global, clock: u32) -> Result<String, AllocError> {
    let mut rows = String::new(alloc);
    for _ in 0..clock {
        rows.push_str("0\n")?;
    }
    rows.push_str("1\n0\n1\n")?;
    Ok(rows)
}

/// Fails unless these words with a trigger write what they write without it over the first rows, so many.
fn ends_as_first<R: Threads + Wait + Copy + Send + Sync>(
    rt: &R,
    alloc: Global,
    design: &str,
    rows: &str,
    count: u32,
    words: &[&str],
    plain: &[&str],
) -> Result<(), Fail> {
    let (first, _) = cut(alloc, rows, count)?;
    let ended = written_on(rt, alloc, words, &first_piece(design, rows))?;
    let whole = written_on(rt, alloc, plain, &first_piece(design, first.as_str()))?;
    are_found(ended.as_bytes(), whole.as_bytes(), first.as_str())
}

/// Words with a trigger, and without it.
const PAIRS: [(&[&str], &[&str]); 6] = [
    (&["sim", "d", "s", "until=d"], &["sim", "d", "s"]),
    (&["wave", "d", "s", "until=d"], &["wave", "d", "s"]),
    (
        &["run", "d", "b", "s", "until=d", "workers=1"],
        &["run", "d", "b", "s", "workers=1"],
    ),
    (
        &["run", "d", "b", "s", "until=d", "workers=3"],
        &["run", "d", "b", "s", "workers=3"],
    ),
    (
        &["save", "d", "b", "s", "until=d", "workers=3"],
        &["save", "d", "b", "s", "workers=1"],
    ),
    (
        &["save", "d", "b", "s", "until=d", "every=100", "workers=1"],
        &["save", "d", "b", "s", "every=100", "workers=3"],
    ),
];

/// In the first clock, at the edges of batches of 256 rows and beside them.
#[test]
fn a_triggered_run_is_that_of_the_first_rows(rt: HostRuntime) -> Result<(), Fail> {
    let alloc = rt.alloc();
    for clock in [0, 1, 254, 255, 256, 257, 511, 512] {
        let rows = rows_with_one(alloc, clock)?;
        let count = clock.saturating_add(1);
        for (words, plain) in &PAIRS {
            ends_as_first(&rt, alloc, TOGGLE, rows.as_str(), count, words, plain)?;
        }
    }
    Ok(())
}

/// The last bit of the second word of each line behind the first, up to the last line: that of a single probe in each clock.
fn probed(alloc: Global, trace: &str) -> Result<String, AllocError> {
    let (_, clocks) = cut(alloc, trace, 1)?;
    let mut bits = String::new(alloc);
    let mut spaces = 0u32;
    let mut last = '-';
    for letter in clocks.chars() {
        if letter == '\n' {
            spaces = 0;
        } else if letter == ' ' {
            spaces = spaces.saturating_add(1);
            if spaces == 2 {
                bits.push(last)?;
            }
        }
        last = letter;
    }
    bits.pop();
    Ok(bits)
}

/// Fails unless the bits of a probe are 0 in all clocks but the last, and there 1, or 0 in all of so many.
fn is_first_one(bits: &str, most: usize) -> Result<(), Fail> {
    let ones = bits.chars().filter(|bit| *bit == '1').count();
    if ones == 1 && bits.ends_with('1') || ones == 0 && bits.len() == most {
        return Ok(());
    }
    Err(Fail::new(format_args!("another first one: {bits}")))
}

/// Each net of a generated design ends its runs where it is 1 for the first time: its probe has no other 1.
#[test]
fn nets_of_a_generated_design_end_its_runs(rt: HostRuntime) -> Result<(), Fail> {
    const NETS: [(&str, &str); 5] = [
        ("until=c7", "probe=c7"),
        ("until=c20", "probe=c20"),
        ("until=c40", "probe=c40"),
        ("until=c63", "probe=c63"),
        ("until=c99", "probe=c99"),
    ];
    let alloc = rt.alloc();
    let (design, rows) = demonstrated(alloc, 100)?;
    let (design, rows) = (design.as_str(), rows.as_str());
    let most = lines_of(rows);
    for (until, probe) in NETS {
        let ended = simulated_with(&rt, alloc, design, rows, &["sim", "d", "s", until, probe])?;
        let count = lines_of(ended.as_str()).saturating_sub(2);
        is_first_one(probed(alloc, ended.as_str())?.as_str(), most as usize)?;
        let words: &[&str] = &["run", "d", "b", "s", until, "workers=3"];
        let plain: &[&str] = &["sim", "d", "s"];
        ends_as_first(&rt, alloc, design, rows, count, words, plain)?;
    }
    Ok(())
}

//! What stops a saving or a resumption, and its message.
use super::*;

/// The texts with another state, and other later rows.
fn with<'x>(state: &'x str, later: &'x str) -> [(&'x str, &'x str); 5] {
    [
        ("d", TOGGLE),
        ("b", TRIANGLE),
        ("p", TOGGLE_PLAN),
        ("t", state),
        ("r", later),
    ]
}

#[test]
fn states_are_refused_with_their_lines(rt: HostRuntime) -> Result<(), Fail> {
    const TABLE: &[(&str, &str, u8, &str)] = &[
        (
            "state 1 1 2 10\n",
            LATER,
            11,
            "state 2: 2 latches, wanted 1\n",
        ),
        (
            "state 1 1 0 -\n",
            LATER,
            11,
            "state 2: 0 latches, wanted 1\n",
        ),
        ("state 1 01 1 1\n", LATER, 11, "state 1: bad text\n"),
        ("state 1 4294967296 1 1\n", LATER, 11, "state 1: bad text\n"),
        ("state 1 1 1 1", LATER, 11, "state 1: bad text\n"),
        ("state 1 1 1 11\n", LATER, 11, "state 1: bad text\n"),
        ("", LATER, 11, "state 1: bad text\n"),
        // the text of the state counts before the stimulus, and its clock after it
        (
            "state 1 1 2 10\n",
            "11\n",
            11,
            "state 2: 2 latches, wanted 1\n",
        ),
        (
            "state 1 4294967295 1 0\n",
            "1\n",
            11,
            "state 3: 4294967296 clocks\n",
        ),
        (
            "state 1 4294967295 1 0\n",
            "1\nhold 4\n",
            11,
            "state 3: 4294967300 clocks\n",
        ),
        (
            "state 1 4294967295 1 0\n",
            "11\n",
            5,
            "stimulus 3: line 1: found 2 bits, wanted 1\n",
        ),
    ];
    for (state, later, status, line) in TABLE {
        let texts = with(state, later);
        let wanted = End::refused(*status, line);
        all_end_on(&rt, rt.alloc(), &RESUME, &texts, Fault::None, wanted)?;
    }
    Ok(())
}

#[test]
fn the_last_clock_that_a_trace_can_have_is_reached(rt: HostRuntime) -> Result<(), Fail> {
    let texts = with("state 1 4294967293 1 0\n", "1\n0\n");
    let wanted = End::done("trace 1 1 1\n4294967293 0 0\n4294967294 1 1\nend 4294967295 1\n");
    all_end_on(&rt, rt.alloc(), &RESUME, &texts, Fault::None, wanted)
}

#[test]
fn faults_are_those_of_the_file_that_is_read(rt: HostRuntime) -> Result<(), Fail> {
    const OWN: [&[&str]; 2] = [
        &["resume", "d", "b", "t", "r"],
        &["resume", "d", "b", "t", "r", "workers=1"],
    ];
    const READS: &[(u64, &str)] = &[
        (1, "read fault: design\n"),
        (2, "read fault: design\n"),
        (3, "read fault: board\n"),
        (4, "read fault: board\n"),
        (5, "read fault: state\n"),
        (6, "read fault: state\n"),
        (7, "read fault: stimulus\n"),
        (8, "read fault: stimulus\n"),
        (9, "read fault: stimulus\n"),
    ];
    let alloc = rt.alloc();
    for (number, line) in READS {
        let wanted = End::refused(7, line);
        all_end_on(&rt, alloc, &OWN, TEXTS, Fault::Read(*number), wanted)?;
    }
    // the rows are read again, and the first line is written
    let again = End {
        status: 7,
        out: "trace 1 1 1\n",
        err: "read fault: stimulus\n",
    };
    all_end_on(&rt, alloc, &OWN, TEXTS, Fault::Read(10), again)?;
    all_end_on(
        &rt,
        alloc,
        &OWN,
        TEXTS,
        Fault::Read(11),
        End::done(LATER_TRACE),
    )?;
    let wanted = End::refused(8, "write fault\n");
    all_end_on(&rt, alloc, &RESUME, TEXTS, Fault::Write(1), wanted)?;
    const SAVE: [&[&str]; 1] = [&["save", "d", "b", "s"]];
    all_end_on(&rt, alloc, &SAVE, TEXTS, Fault::Write(1), wanted)
}

/// The toggle on the triangle with these rows.
fn over_rows<'x>(rows: &'x str) -> [(&'x str, &'x str); 3] {
    [("d", TOGGLE), ("b", TRIANGLE), ("s", rows)]
}

/// Two reads of the design, two of the board and three that check the stimulus; the last three read its 513 rows again, and
/// nothing is written before the last clock.
#[test]
fn nothing_is_saved_before_the_last_clock(rt: HostRuntime) -> Result<(), Fail> {
    const SAVE: [&[&str]; 2] = [
        &["save", "d", "b", "s", "workers=1"],
        &["save", "d", "b", "s", "workers=3"],
    ];
    const STAGES: &[(u64, &str)] = &[
        (2, "read fault: design\n"),
        (4, "read fault: board\n"),
        (10, "read fault: stimulus\n"),
    ];
    let alloc = rt.alloc();
    let rows = spelled(alloc, &[(513, "1\n")])?;
    let texts = over_rows(rows.as_str());
    for number in 1..11u64 {
        let wanted = End::refused(7, line_of_read(STAGES, number));
        all_end_on(&rt, alloc, &SAVE, &texts, Fault::Read(number), wanted)?;
    }
    let saved = End::done("state 1 513 1 1\n");
    all_end_on(&rt, alloc, &SAVE, &texts, Fault::Read(11), saved)
}

#[test]
fn files_come_in_their_order(rt: HostRuntime) -> Result<(), Fail> {
    const TABLE: &[(&[&str], u8, &str)] = &[
        (&["resume", "x", "x", "x", "x"], 7, "read fault: design\n"),
        (&["resume", "d", "x", "x", "x"], 7, "read fault: board\n"),
        (
            &["resume", "d", "b", "x", "x", "plan=x"],
            7,
            "read fault: plan\n",
        ),
        (&["resume", "d", "b", "x", "x"], 7, "read fault: state\n"),
        (&["resume", "d", "b", "t", "x"], 7, "read fault: stimulus\n"),
        (&["save", "d", "b", "x"], 7, "read fault: stimulus\n"),
        (&["save", "b", "b", "s"], 1, "design 2: line 1: no model\n"),
        (
            &["resume", "d", "d", "t", "r"],
            3,
            "board 2: line 1: bad line\n",
        ),
    ];
    for (words, status, line) in TABLE {
        let wanted = End::refused(*status, line);
        ends_on(&rt, rt.alloc(), words, TEXTS, Fault::None, wanted)?;
    }
    Ok(())
}

#[test]
fn states_need_a_runtime(rt: HostRuntime) -> Result<(), Fail> {
    const WORDS: &[(&[&str], u8, &str, &str)] = &[
        (&["save", "d", "b", "s"], SEVERAL, "", ""),
        (&["save", "d", "b", "s", "workers=1"], SEVERAL, "", ""),
        (
            &["resume", "d", "b", "t", "r", "workers=1"],
            SEVERAL,
            "",
            "",
        ),
        (&["save", "d", "b"], 2, "", "usage: word 4\n"),
        (&["resume", "d", "b", "t"], 2, "", "usage: word 5\n"),
        (
            &["save", "d", "b", "s", "probe=q"],
            2,
            "",
            "usage: word 5\n",
        ),
        (
            &["resume", "d", "b", "t", "r", "every=1"],
            2,
            "",
            "usage: word 6\n",
        ),
        (
            &["resume", "d", "b", "t", "r", "workers=0"],
            2,
            "",
            "usage: word 6\n",
        ),
    ];
    words_end(rt.alloc(), TEXTS, WORDS)
}

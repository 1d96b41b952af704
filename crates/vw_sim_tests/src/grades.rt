//! The command `grade`: which stuck nets of a design a stimulus doesn't reveal.
use std::alloc::Global;
use std::marker::Sync;
use std::sync::Wait;
use std::test::Fail;
use std::thread::Threads;
use vw_sample_calls::{
    End, Fault, SEVERAL, all_end_on, are_found, demonstrated, ends_on, words_end, written_on,
};
use vw_samples::{TOGGLE, TOGGLE_RUN};

/// The grading of the toggle by its stimulus, which never shows that `en` is stuck at 1.
const TOGGLE_GRADE: &str = "grade 1 6 5\nopen en 1\nend\n";

/// Its grading by no rows.
const EMPTY_GRADE: &str = "grade 1 6 0\n\
open en 0\n\
open en 1\n\
open d 0\n\
open d 1\n\
open q 0\n\
open q 1\n\
end\n";

/// The toggle with no rows.
const EMPTY: &[(&str, &str)] = &[("d", TOGGLE), ("s", "")];

/// The words of a grading, by several numbers of workers.
const GRADES: [&[&str]; 4] = [
    &["grade", "d", "s", "workers=1"],
    &["grade", "d", "s", "workers=2"],
    &["grade", "d", "s", "workers=64"],
    &["grade", "d", "s"],
];

/// The grading of a generated design of 100 cells by its 300 rows, by so many workers.
fn graded<R: Threads + Wait + Copy + Send + Sync>(
    rt: &R,
    alloc: Global,
    design: &str,
    rows: &str,
    workers: &str,
) -> Result<String, Fail> {
    let texts = [("d", design), ("s", rows)];
    written_on(rt, alloc, &["grade", "d", "s", workers], &texts)
}

#[test]
fn gradings_of_a_generated_design_are_alike(rt: HostRuntime) -> Result<(), Fail> {
    let alloc = rt.alloc();
    let (design, rows) = demonstrated(alloc, 100)?;
    let one = graded(&rt, alloc, design.as_str(), rows.as_str(), "workers=1")?;
    let eight = graded(&rt, alloc, design.as_str(), rows.as_str(), "workers=8")?;
    are_found(eight.as_bytes(), one.as_bytes(), "eight workers")?;
    // eight inputs and 100 cells have 108 nets, of which each can be stuck at two bits
    let front = one.as_bytes().starts_with(b"grade 1 216 ");
    assert_eq!(&rt; front, true);
    Ok(())
}

#[test]
fn any_number_of_workers_write_the_grading(rt: HostRuntime) -> Result<(), Fail> {
    let alloc = rt.alloc();
    let toggle = End::done(TOGGLE_GRADE);
    let empty = End::done(EMPTY_GRADE);
    all_end_on(&rt, alloc, &GRADES, TOGGLE_RUN, Fault::None, toggle)?;
    all_end_on(&rt, alloc, &GRADES, EMPTY, Fault::None, empty)
}

/// The toggle has six faults: `en`, `d` and `q`, each at 0 and at 1. The second of them is open.
#[test]
fn a_share_is_graded_by_itself(rt: HostRuntime) -> Result<(), Fail> {
    const SHARES: &[(&[&str], &str)] = &[
        (&["grade", "d", "s", "part=1/1"], TOGGLE_GRADE),
        (
            &["grade", "d", "s", "part=1/2"],
            "grade 1 3 2\nopen en 1\nend\n",
        ),
        (&["grade", "d", "s", "part=2/2"], "grade 1 3 3\nend\n"),
        (&["grade", "d", "s", "part=1/4"], "grade 1 1 1\nend\n"),
        (
            &["grade", "d", "s", "part=2/4"],
            "grade 1 2 1\nopen en 1\nend\n",
        ),
        (&["grade", "d", "s", "part=3/4"], "grade 1 1 1\nend\n"),
        (
            &["grade", "d", "s", "part=4/4", "workers=1"],
            "grade 1 2 2\nend\n",
        ),
        (&["grade", "d", "s", "part=1/7"], "grade 1 0 0\nend\n"),
        (
            &["grade", "d", "s", "workers=3", "part=3/7"],
            "grade 1 1 0\nopen en 1\nend\n",
        ),
        (&["grade", "d", "s", "part=1/65536"], "grade 1 0 0\nend\n"),
        (
            &["grade", "d", "s", "part=65536/65536"],
            "grade 1 1 1\nend\n",
        ),
    ];
    let alloc = rt.alloc();
    for (words, text) in SHARES {
        ends_on(&rt, alloc, words, TOGGLE_RUN, Fault::None, End::done(text))?;
    }
    Ok(())
}

/// The open lines of all shares of the grading of a generated design, one share behind the other.
fn joined<R: Threads + Wait + Copy + Send + Sync>(
    rt: &R,
    alloc: Global,
    design: &str,
    rows: &str,
    shares: u32,
) -> Result<Vec<u8>, Fail> {
    let texts = [("d", design), ("s", rows)];
    let mut lines = Vec::new(alloc);
    for before in 0..shares {
        let number = before.wrapping_add(1);
        let part = format!(in alloc; "part={number}/{shares}")?;
        let text = written_on(rt, alloc, &["grade", "d", "s", part.as_str()], &texts)?;
        for line in text.as_bytes().split(|byte| *byte == b'\n') {
            if line.starts_with(b"open ") {
                lines.extend_from_slice(line)?;
                lines.push(b'\n')?;
            }
        }
    }
    Ok(lines)
}

#[test]
fn shares_of_a_generated_design_join(rt: HostRuntime) -> Result<(), Fail> {
    let alloc = rt.alloc();
    let (design, rows) = demonstrated(alloc, 100)?;
    let whole = joined(&rt, alloc, design.as_str(), rows.as_str(), 1)?;
    assert_eq!(&rt; whole.is_empty(), false);
    for shares in [2u32, 7, 64, 300] {
        let found = joined(&rt, alloc, design.as_str(), rows.as_str(), shares)?;
        are_found(found.as_slice(), whole.as_slice(), "shares")?;
    }
    Ok(())
}

/// A latch that keeps its value: a stuck net shows where it is stuck at the other one.
#[test]
fn free_latches_of_a_grading_start_as_the_setting_says(rt: HostRuntime) -> Result<(), Fail> {
    const FREE: &[(&str, &str)] = &[
        ("d", ".model m\n.outputs q\n.latch q q 2\n"),
        ("s", "hold 2\n"),
    ];
    const ZERO: [&[&str]; 2] = [
        &["grade", "d", "s"],
        &["grade", "d", "s", "workers=1", "unknown=0"],
    ];
    const ONE: [&[&str]; 2] = [
        &["grade", "d", "s", "unknown=1"],
        &["grade", "d", "s", "unknown=1", "workers=3"],
    ];
    let alloc = rt.alloc();
    let zero = End::done("grade 1 2 1\nopen q 0\nend\n");
    let one = End::done("grade 1 2 1\nopen q 1\nend\n");
    all_end_on(&rt, alloc, &ZERO, FREE, Fault::None, zero)?;
    all_end_on(&rt, alloc, &ONE, FREE, Fault::None, one)
}

#[test]
fn what_stops_a_grading_is_named(rt: HostRuntime) -> Result<(), Fail> {
    const WIDE: &[(&str, &str)] = &[("d", TOGGLE), ("s", "11\n")];
    const MISSING: [&[&str]; 1] = [&["grade", "d", "missing"]];
    let alloc = rt.alloc();
    let read = End::refused(7, "read fault: stimulus\n");
    let design = End::refused(7, "read fault: design\n");
    let write = End::refused(8, "write fault\n");
    let wide = End::refused(5, "stimulus 3: line 1: found 2 bits, wanted 1\n");
    all_end_on(&rt, alloc, &MISSING, TOGGLE_RUN, Fault::None, read)?;
    all_end_on(&rt, alloc, &GRADES, TOGGLE_RUN, Fault::Read(1), design)?;
    all_end_on(&rt, alloc, &GRADES, TOGGLE_RUN, Fault::Read(3), read)?;
    all_end_on(&rt, alloc, &GRADES, TOGGLE_RUN, Fault::Write(1), write)?;
    all_end_on(&rt, alloc, &GRADES, WIDE, Fault::None, wide)
}

/// Two reads find the design and its end. Of the stimulus the first asks for a byte past the limit, two check the text, and two
/// read its rows again. All is written at once, so the only write leaves nothing.
#[test]
fn each_read_and_write_of_a_grading_may_fail(rt: HostRuntime) -> Result<(), Fail> {
    const SEVERAL_WORKERS: &[&str] = &["grade", "d", "s", "workers=3"];
    const READS: &[(u64, &str)] = &[
        (1, "read fault: design\n"),
        (2, "read fault: design\n"),
        (3, "read fault: stimulus\n"),
        (4, "read fault: stimulus\n"),
        (5, "read fault: stimulus\n"),
        (6, "read fault: stimulus\n"),
    ];
    let alloc = rt.alloc();
    for (number, line) in READS {
        let wanted = End::refused(7, line);
        ends_on(
            &rt,
            alloc,
            SEVERAL_WORKERS,
            TOGGLE_RUN,
            Fault::Read(*number),
            wanted,
        )?;
    }
    let done = End::done(TOGGLE_GRADE);
    let stopped = End::refused(8, "write fault\n");
    ends_on(
        &rt,
        alloc,
        SEVERAL_WORKERS,
        TOGGLE_RUN,
        Fault::Read(7),
        done,
    )?;
    ends_on(
        &rt,
        alloc,
        SEVERAL_WORKERS,
        TOGGLE_RUN,
        Fault::Write(1),
        stopped,
    )?;
    ends_on(
        &rt,
        alloc,
        SEVERAL_WORKERS,
        TOGGLE_RUN,
        Fault::Write(2),
        done,
    )
}

#[test]
fn a_grading_needs_a_runtime(rt: HostRuntime) -> Result<(), Fail> {
    const WORDS: &[(&[&str], u8, &str, &str)] = &[
        (&["grade", "d", "s"], SEVERAL, "", ""),
        (&["grade", "d", "s", "workers=1"], SEVERAL, "", ""),
        (&["grade"], 2, "", "usage: word 2\n"),
        (&["grade", "d"], 2, "", "usage: word 3\n"),
        (&["grade", "d", "s", "probe=q"], 2, "", "usage: word 4\n"),
        (&["grade", "d", "s", "workers=0"], 2, "", "usage: word 4\n"),
        (&["grade", "d", "s", "workers=65"], 2, "", "usage: word 4\n"),
        (&["grade", "d", "s", "part=1/1"], SEVERAL, "", ""),
        (&["grade", "d", "s", "part=65536/65536"], SEVERAL, "", ""),
        (&["grade", "d", "s", "part="], 2, "", "usage: word 4\n"),
        (&["grade", "d", "s", "part=1"], 2, "", "usage: word 4\n"),
        (&["grade", "d", "s", "part=/1"], 2, "", "usage: word 4\n"),
        (&["grade", "d", "s", "part=1/"], 2, "", "usage: word 4\n"),
        (&["grade", "d", "s", "part=0/1"], 2, "", "usage: word 4\n"),
        (&["grade", "d", "s", "part=0/0"], 2, "", "usage: word 4\n"),
        (&["grade", "d", "s", "part=2/1"], 2, "", "usage: word 4\n"),
        (&["grade", "d", "s", "part=01/2"], 2, "", "usage: word 4\n"),
        (&["grade", "d", "s", "part=1/2/3"], 2, "", "usage: word 4\n"),
        (&["grade", "d", "s", "part=1 /2"], 2, "", "usage: word 4\n"),
        (
            &["grade", "d", "s", "part=1/65537"],
            2,
            "",
            "usage: word 4\n",
        ),
        (
            &["grade", "d", "s", "part=1/2", "part=2/2"],
            2,
            "",
            "usage: word 5\n",
        ),
        (&["sim", "d", "s", "part=1/2"], 2, "", "usage: word 4\n"),
    ];
    words_end(rt.alloc(), TOGGLE_RUN, WORDS)
}

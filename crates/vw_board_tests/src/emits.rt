//! The command `emit`: planned boards as designs, and why others aren't written.
use std::test::Fail;
use vw_sample_calls::{Fault, faults_end, words_end};
use vw_samples::{
    AND, AND_PLAN, EMITTED_AND, EMITTED_TOGGLE, LONG_PLAN, ONE_CHIP, TOGGLE, TOGGLE_PLAN, TRIANGLE,
};

/// The words of an emission, over the files d, b and p.
const EMIT: &[&str] = &["emit", "d", "b", "plan=p"];

/// The toggle on the triangle, with its plan.
const TEXTS: &[(&str, &str)] = &[("d", TOGGLE), ("b", TRIANGLE), ("p", TOGGLE_PLAN)];

#[test]
fn planned_boards_are_written(rt: HostRuntime) -> Result<(), Fail> {
    const SHARED: &[(&str, &str)] = &[("d", AND), ("b", ONE_CHIP), ("p", AND_PLAN)];
    words_end(rt.alloc(), SHARED, &[(EMIT, 0, EMITTED_AND, "")])?;
    words_end(rt.alloc(), TEXTS, &[(EMIT, 0, EMITTED_TOGGLE, "")])
}

#[test]
fn an_emission_is_refused_by_its_files_and_by_its_size(rt: HostRuntime) -> Result<(), Fail> {
    const LONG: &[(&str, &str)] = &[("d", TOGGLE), ("b", TRIANGLE), ("p", LONG_PLAN)];
    const BAD: &[(&str, &str)] = &[("d", ".model m\n.inputs a\n.outputs b\n"), ("b", TRIANGLE)];
    const SMALL: &[(&str, &str)] = &[
        ("d", TOGGLE),
        (
            "b",
            "board 1\nchips 1\ncells 1\nsettle 0\npins 2\nlink 0 1 1\nlink 1 0 1\n",
        ),
    ];
    words_end(
        rt.alloc(),
        LONG,
        &[(EMIT, 10, "", "emit 1: 120023 cells\n")],
    )?;
    words_end(
        rt.alloc(),
        BAD,
        &[(&["emit", "d", "b"], 1, "", "design 19: undriven b\n")],
    )?;
    words_end(
        rt.alloc(),
        SMALL,
        &[(&["emit", "d", "b"], 6, "", "fit: 2 cells, room for 1\n")],
    )
}

#[test]
fn wrong_words_of_an_emission_have_their_place(rt: HostRuntime) -> Result<(), Fail> {
    const TABLE: &[(&[&str], u8, &str, &str)] = &[
        (&["emit"], 2, "", "usage: word 2\n"),
        (&["emit", "d"], 2, "", "usage: word 3\n"),
        (&["emit", "d", "b", "p"], 2, "", "usage: word 4\n"),
        (&["emit", "d", "b", "probe=q"], 2, "", "usage: word 4\n"),
        (
            &["emit", "d", "b", "plan=p", "plan=p"],
            2,
            "",
            "usage: word 5\n",
        ),
        (
            &["emit", "d", "b", "plan=missing"],
            7,
            "",
            "read fault: plan\n",
        ),
        (
            &["emit", "d", "missing", "plan=p"],
            7,
            "",
            "read fault: board\n",
        ),
        (
            &["emit", "missing", "b", "plan=p"],
            7,
            "",
            "read fault: design\n",
        ),
    ];
    words_end(rt.alloc(), TEXTS, TABLE)
}

#[test]
fn each_read_and_write_of_an_emission_may_fail(rt: HostRuntime) -> Result<(), Fail> {
    const TABLE: &[(u32, Fault, u8, &str, &str)] = &[
        (65_536, Fault::Read(1), 7, "", "read fault: design\n"),
        (65_536, Fault::Read(3), 7, "", "read fault: board\n"),
        (65_536, Fault::Read(5), 7, "", "read fault: plan\n"),
        (65_536, Fault::Write(1), 8, "", "write fault\n"),
        (6, Fault::Write(3), 8, ".model board", "write fault\n"),
    ];
    faults_end(rt.alloc(), EMIT, TEXTS, TABLE)
}

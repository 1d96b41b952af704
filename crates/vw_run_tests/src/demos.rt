//! The command `demo`. The summaries come from a program in another language, by the rules alone.
use std::test::Fail;
use vw_sample_calls::{SEVERAL, words_end};

#[test]
fn a_demo_has_the_summary_that_was_worked_out_elsewhere(rt: HostRuntime) -> Result<(), Fail> {
    const TABLE: &[(&[&str], u8, &str, &str)] = &[
        (
            &["demo", "1", "workers=1"],
            0,
            "demo 1 300 373 3719087983\n",
            "",
        ),
        (
            &["demo", "4", "workers=1"],
            0,
            "demo 4 300 1211 499438232\n",
            "",
        ),
        (
            &["demo", "100", "workers=1"],
            0,
            "demo 100 300 3958 3665400178\n",
            "",
        ),
        (
            &["demo", "1000", "workers=1"],
            0,
            "demo 1000 300 44563 1543114685\n",
            "",
        ),
        (
            &["demo", "4000", "workers=1"],
            0,
            "demo 4000 300 178780 3000348941\n",
            "",
        ),
    ];
    words_end(rt.alloc(), &[], TABLE)
}

#[test]
fn a_demo_has_from_1_to_20000_cells(rt: HostRuntime) -> Result<(), Fail> {
    const TABLE: &[(&[&str], u8, &str, &str)] = &[
        (&["demo"], 2, "", "usage: word 2\n"),
        (&["demo", "0"], 2, "", "usage: word 2\n"),
        (&["demo", "20001"], 2, "", "usage: word 2\n"),
        (&["demo", "01"], 2, "", "usage: word 2\n"),
        (&["demo", "5", "workers=0"], 2, "", "usage: word 3\n"),
        (&["demo", "5", "plan=p"], 2, "", "usage: word 3\n"),
        (&["demo", "5", "workers=1", "x"], 2, "", "usage: word 4\n"),
        // four workers where none are given
        (&["demo", "5"], SEVERAL, "", ""),
        (&["demo", "5", "workers=2"], SEVERAL, "", ""),
    ];
    words_end(rt.alloc(), &[], TABLE)
}

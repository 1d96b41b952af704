//! The command `plan` for given chips: plans that were made by hand, and chips that no plan has.
use std::alloc::Global;
use std::test::Fail;
use vw_sample_calls::{End, Fault, faults_end, words_end, words_end_so};
use vw_samples::{CHAIN, FLIP, FLIP_PLAN, TOGGLE, TOGGLE_PLAN, TRIANGLE};

/// The words of a plan for the chips c, over the files d and b.
const PLAN_FOR: &[&str] = &["plan", "d", "b", "chips=c"];

/// The same plan as that of the toggle, with the two chips exchanged.
const MIRRORED_PLAN: &str =
    "plan 1 2 4 2\nchips 2 1\nwire 0 2 1\nhop 0 2 0 0\nwire 1 1 1\nhop 2 1 0 1\nwire 2 0 1\nhop 1 0 0 0\nwire 2 2 1\nhop 1 2 0 0\nend\n";

/// The texts of some chips, and how a plan of the toggle on the triangle for them ends.
const TOGGLE_CHIPS: &[(&str, u8, &str, &str)] = &[
    ("chips 1 2\n", 0, TOGGLE_PLAN, ""),
    ("chips 2 1\n", 0, MIRRORED_PLAN, ""),
    // not such a line
    ("", 4, "", "plan 2: line 1\n"),
    ("chips 1 2", 4, "", "plan 2: line 1\n"),
    ("chips 1  2\n", 4, "", "plan 2: line 1\n"),
    ("chips 1 2 \n", 4, "", "plan 2: line 1\n"),
    ("chips 01 2\n", 4, "", "plan 2: line 1\n"),
    ("chips 1 x\n", 4, "", "plan 2: line 1\n"),
    ("chip 1 2\n", 4, "", "plan 2: line 1\n"),
    ("\nchips 1 2\n", 4, "", "plan 2: line 1\n"),
    ("chips 1 4294967296\n", 4, "", "plan 2: line 1\n"),
    (TOGGLE_PLAN, 4, "", "plan 2: line 1\n"),
    // a line too many
    ("chips 1 2\n\n", 4, "", "plan 2: line 2\n"),
    ("chips 1 2\nend\n", 4, "", "plan 2: line 2\n"),
    // another number of chips, then no chip, then too many cells
    ("chips\n", 4, "", "plan 3: 0 cells, wanted 2\n"),
    ("chips 3 3 3\n", 4, "", "plan 3: 3 cells, wanted 2\n"),
    ("chips 1 3\n", 4, "", "plan 5: cell 1 has no chip\n"),
    (
        "chips 0 4294967295\n",
        4,
        "",
        "plan 5: cell 0 has no chip\n",
    ),
    ("chips 2 2\n", 4, "", "plan 6: chip 2 has 2 cells\n"),
];

/// The toggle on the triangle, with some chips.
fn with<'x>(chips: &'x str) -> [(&'x str, &'x str); 3] {
    [("d", TOGGLE), ("b", TRIANGLE), ("c", chips)]
}

/// Fails unless a plan for these chips ends in this way.
fn plan_ends(alloc: Global, chips: &str, end: End) -> Result<(), Fail> {
    let texts = with(chips);
    words_end_so(alloc, PLAN_FOR, &texts, end)
}

/// Fails unless a plan for each of these chips ends with its status, output and message.
fn plans_end(alloc: Global, table: &[(&str, u8, &str, &str)]) -> Result<(), Fail> {
    for (chips, status, out, err) in table {
        let end = End {
            status: *status,
            out,
            err,
        };
        plan_ends(alloc, chips, end)?;
    }
    Ok(())
}

#[test]
fn plans_have_the_given_chips(rt: HostRuntime) -> Result<(), Fail> {
    plans_end(rt.alloc(), TOGGLE_CHIPS)
}

/// Both cells on the chip that is further from the host, which no plan of the program's own has.
#[test]
fn chips_that_are_not_best_are_kept(rt: HostRuntime) -> Result<(), Fail> {
    const TEXTS: &[(&str, &str)] = &[
        ("d", FLIP),
        ("b", CHAIN),
        ("c", "chips 2 2\n"),
        ("e", ".model m\n"),
        ("n", "chips\n"),
        ("bad", "board 2\n"),
    ];
    const TABLE: &[(&[&str], u8, &str, &str)] = &[
        (PLAN_FOR, 0, FLIP_PLAN, ""),
        (
            &["plan", "e", "b", "chips=n"],
            0,
            "plan 1 0 0 1\nchips\nend\n",
            "",
        ),
        (
            &["plan", "d", "b", "chips=missing"],
            7,
            "",
            "read fault: plan\n",
        ),
        (
            &["plan", "d", "missing", "chips=c"],
            7,
            "",
            "read fault: board\n",
        ),
        (
            &["plan", "d", "b", "chips=c", "chips=c"],
            2,
            "",
            "usage: word 5\n",
        ),
        (&["plan", "d", "b", "plan=c"], 2, "", "usage: word 4\n"),
        (
            &["check", "d", "b", "c", "chips=c"],
            2,
            "",
            "usage: word 5\n",
        ),
    ];
    words_end(rt.alloc(), TEXTS, TABLE)
}

#[test]
fn what_stops_a_plan_for_given_chips_is_named(rt: HostRuntime) -> Result<(), Fail> {
    const TEXTS: &[(&str, &str)] = &[("d", FLIP), ("b", CHAIN), ("c", "chips 2 2\n")];
    const TABLE: &[(u32, Fault, u8, &str, &str)] = &[
        (4096, Fault::Read(1), 7, "", "read fault: design\n"),
        (4096, Fault::Read(3), 7, "", "read fault: board\n"),
        (4096, Fault::Read(5), 7, "", "read fault: plan\n"),
        (4096, Fault::Write(1), 8, "", "write fault\n"),
        (10, Fault::Write(2), 8, "plan 1 2 1", "write fault\n"),
    ];
    faults_end(rt.alloc(), PLAN_FOR, TEXTS, TABLE)
}

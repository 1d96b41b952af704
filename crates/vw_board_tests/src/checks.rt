//! The command `check`: sound plans, and why others aren't.
use std::alloc::Global;
use std::test::Fail;
use vw_sample_calls::{Call, End, Fault, MOST, call_ends, faults_end, words_end};
use vw_samples::{
    AND, AND_PLAN, CHAIN, CUT_PLAN, FAR_CHAIN, FAR_PLAN, FLIP, FLIP_PLAN, ONE_CHIP, SLOW_TRIANGLE,
    SMALL_CHAIN, TOGGLE, TOGGLE_PLAN, TRIANGLE,
};

/// The words of a check, over the files d, b and p.
pub const CHECK: &[&str] = &["check", "d", "b", "p"];

/// The chain, with gates that take 3 to settle.
const SLOW_CHAIN: &str =
    "board 1\nchips 2\ncells 2\nsettle 3\npins 4\nlink 0 1 1\nlink 1 0 1\nlink 1 2 1\nlink 2 1 1\n";

/// Asserts how a check of a design, a board and a plan ends.
fn check_ends(alloc: Global, design: &str, board: &str, plan: &str, end: End) -> Result<(), Fail> {
    let call = Call {
        words: CHECK,
        texts: &[("d", design), ("b", board), ("p", plan)],
        most: MOST,
        fault: Fault::None,
    };
    call_ends(alloc, &call, plan, end)
}

/// Asserts, for each of these designs, boards and plans, with which status, output and message a check ends.
fn checks_end(alloc: Global, table: &[(&str, &str, &str, u8, &str, &str)]) -> Result<(), Fail> {
    for (design, board, plan, status, out, err) in table {
        let end = End {
            status: *status,
            out,
            err,
        };
        check_ends(alloc, design, board, plan, end)?;
    }
    Ok(())
}

#[test]
fn sound_plans_are_accepted(rt: HostRuntime) -> Result<(), Fail> {
    const TABLE: &[(&str, &str, &str, u8, &str, &str)] = &[
        (TOGGLE, TRIANGLE, TOGGLE_PLAN, 0, "sound 4 4 2\n", ""),
        (AND, ONE_CHIP, AND_PLAN, 0, "sound 3 3 3\n", ""),
        (FLIP, CHAIN, FLIP_PLAN, 0, "sound 1 2 2\n", ""),
        // nothing to place, and nothing to send
        (
            ".model m\n",
            TRIANGLE,
            "plan 1 0 0 1\nchips\nend\n",
            0,
            "sound 0 0 1\n",
            "",
        ),
    ];
    checks_end(rt.alloc(), TABLE)
}

#[test]
fn each_single_change_of_a_plan_has_its_line(rt: HostRuntime) -> Result<(), Fail> {
    const TABLE: &[(&str, &str, &str, u8, &str, &str)] = &[
        (
            AND,
            ONE_CHIP,
            "plan 1 1 3 3\nchips 1\nwire 0 1 1\nhop 0 1 0 0\nwire 1 1 1\nhop 0 1 0 0\nwire 2 0 1\nhop 1 0 0 2\nend\n",
            4,
            "",
            "plan 13: wire 0 hop 0 and wire 1 hop 0 share a pin\n",
        ),
        (
            AND,
            ONE_CHIP,
            "plan 1 1 3 3\nchips 1\nwire 0 1 1\nhop 0 1 0 0\nwire 1 1 1\nhop 0 1 0 1\nwire 2 0 1\nhop 1 0 0 1\nend\n",
            4,
            "",
            "plan 14: wire 2 sent at 1, usable at 2\n",
        ),
        (
            AND,
            ONE_CHIP,
            "plan 1 1 3 3\nchips 1\nwire 0 1 1\nhop 0 1 1 0\nwire 1 1 1\nhop 0 1 0 1\nwire 2 0 1\nhop 1 0 0 2\nend\n",
            4,
            "",
            "plan 10: wire 0 hop 0 has no pin\n",
        ),
        (
            AND,
            ONE_CHIP,
            "plan 1 1 3 3\nchips 1\nwire 0 1 1\nhop 1 0 0 0\nwire 1 1 1\nhop 0 1 0 1\nwire 2 0 1\nhop 1 0 0 2\nend\n",
            4,
            "",
            "plan 9: wire 0 hop 0 breaks the route\n",
        ),
        (
            AND,
            ONE_CHIP,
            "plan 1 1 3 2\nchips 1\nwire 0 1 1\nhop 0 1 0 0\nwire 1 1 1\nhop 0 1 0 1\nwire 2 0 1\nhop 1 0 0 2\nend\n",
            4,
            "",
            "plan 12: wire 2 hop 0 is past the period\n",
        ),
        (
            AND,
            ONE_CHIP,
            "plan 1 1 3 0\nchips 1\nwire 0 1 1\nhop 0 1 0 0\nwire 1 1 1\nhop 0 1 0 1\nwire 2 0 1\nhop 1 0 0 2\nend\n",
            4,
            "",
            "plan 4: period 0\n",
        ),
        (
            AND,
            ONE_CHIP,
            "plan 1 1 3 3\nchips 2\nwire 0 1 1\nhop 0 1 0 0\nwire 1 1 1\nhop 0 1 0 1\nwire 2 0 1\nhop 1 0 0 2\nend\n",
            4,
            "",
            "plan 5: cell 0 has no chip\n",
        ),
        (
            AND,
            ONE_CHIP,
            "plan 1 0 3 3\nchips\nwire 0 1 1\nhop 0 1 0 0\nwire 1 1 1\nhop 0 1 0 1\nwire 2 0 1\nhop 1 0 0 2\nend\n",
            4,
            "",
            "plan 3: 0 cells, wanted 1\n",
        ),
        (
            AND,
            ONE_CHIP,
            "plan 1 1 2 3\nchips 1\nwire 0 1 1\nhop 0 1 0 0\nwire 2 0 1\nhop 1 0 0 2\nend\n",
            4,
            "",
            "plan 7: no wire of net 1 to node 1\n",
        ),
        (
            AND,
            ONE_CHIP,
            "plan 1 1 4 3\nchips 1\nwire 0 1 1\nhop 0 1 0 0\nwire 1 1 1\nhop 0 1 0 1\nwire 2 0 1\nhop 1 0 0 2\nwire 0 1 1\nhop 0 1 0 0\nend\n",
            4,
            "",
            "plan 8: wire 3 isn't needed\n",
        ),
        // not a plan's spelling at all: a word too many, and a text that stops early
        (AND, ONE_CHIP, "plan 1 1 3 3 3\n", 4, "", "plan 2: line 1\n"),
        (
            AND,
            ONE_CHIP,
            "plan 1 1 3 3\nchips 1\n",
            4,
            "",
            "plan 2: line 3\n",
        ),
    ];
    checks_end(rt.alloc(), TABLE)
}

#[test]
fn gates_need_time_to_settle(rt: HostRuntime) -> Result<(), Fail> {
    const TABLE: &[(&str, &str, &str, u8, &str, &str)] = &[
        (
            TOGGLE,
            SLOW_TRIANGLE,
            TOGGLE_PLAN,
            4,
            "",
            "plan 14: wire 1 sent at 1, usable at 2\n",
        ),
        (
            FLIP,
            SLOW_CHAIN,
            FLIP_PLAN,
            4,
            "",
            "plan 15: latch 1 usable at 3\n",
        ),
        (
            FLIP,
            SMALL_CHAIN,
            FLIP_PLAN,
            4,
            "",
            "plan 6: chip 2 has 2 cells\n",
        ),
        (
            FLIP,
            CHAIN,
            "plan 1 2 1 2\nchips 2 2\nwire 1 0 2\nhop 2 1 0 0\nhop 1 0 0 0\nend\n",
            4,
            "",
            "plan 11: wire 0 hop 1 is out of order\n",
        ),
        // the last four bytes are cut off
        (TOGGLE, TRIANGLE, CUT_PLAN, 4, "", "plan 2: line 11\n"),
    ];
    checks_end(rt.alloc(), TABLE)
}

/// The `and` on a board with a link of delay 2 from the host, and one of delay 2 both ways.
const LATE_INPUTS: &str =
    "board 2\nchips 1\ncells 1\nsettle 0\npins 2\nlink 0 1 1 2\nlink 1 0 1 1\n";

const LATE_BOTH: &str = "board 2\nchips 1\ncells 1\nsettle 0\npins 2\nlink 0 1 1 2\nlink 1 0 1 2\n";

#[test]
fn bits_take_the_delays_of_their_links(rt: HostRuntime) -> Result<(), Fail> {
    const TABLE: &[(&str, &str, &str, u8, &str, &str)] = &[
        (
            AND,
            LATE_INPUTS,
            AND_PLAN,
            4,
            "",
            "plan 14: wire 2 sent at 2, usable at 3\n",
        ),
        (
            AND,
            LATE_INPUTS,
            "plan 1 1 3 4\nchips 1\nwire 0 1 1\nhop 0 1 0 0\nwire 1 1 1\nhop 0 1 0 1\nwire 2 0 1\nhop 1 0 0 3\nend\n",
            0,
            "sound 3 3 4\n",
            "",
        ),
        (
            AND,
            LATE_BOTH,
            "plan 1 1 3 4\nchips 1\nwire 0 1 1\nhop 0 1 0 0\nwire 1 1 1\nhop 0 1 0 1\nwire 2 0 1\nhop 1 0 0 3\nend\n",
            4,
            "",
            "plan 12: wire 2 hop 0 is past the period\n",
        ),
        (
            AND,
            LATE_BOTH,
            "plan 1 1 3 5\nchips 1\nwire 0 1 1\nhop 0 1 0 0\nwire 1 1 1\nhop 0 1 0 1\nwire 2 0 1\nhop 1 0 0 3\nend\n",
            0,
            "sound 3 3 5\n",
            "",
        ),
        (
            FLIP,
            FAR_CHAIN,
            "plan 1 2 1 4\nchips 2 2\nwire 1 0 2\nhop 2 1 0 0\nhop 1 0 0 2\nend\n",
            4,
            "",
            "plan 11: wire 0 hop 1 is out of order\n",
        ),
        (FLIP, FAR_CHAIN, FAR_PLAN, 0, "sound 1 2 4\n", ""),
    ];
    checks_end(rt.alloc(), TABLE)
}

#[test]
fn each_fault_of_a_board_has_its_line(rt: HostRuntime) -> Result<(), Fail> {
    // whatever the plan is: the board comes first
    const TABLE: &[(&str, &str, &str, u8, &str, &str)] = &[
        (
            TOGGLE,
            "board 1\nchips 2\ncells 4\nsettle 0\npins 4\nlink 0 1 1\nlink 1 0 1\nlink 1 2 1\n",
            "plan\n",
            3,
            "",
            "board 7: no walk from 2 to 0\n",
        ),
        (
            TOGGLE,
            "board 1\nchips 2\n",
            "plan\n",
            3,
            "",
            "board 2: line 3: bad line\n",
        ),
        (
            TOGGLE,
            "board 1\nchips 40\n",
            "plan\n",
            3,
            "",
            "board 3: line 2: bad number\n",
        ),
        (
            TOGGLE,
            "board 1\nchips 1\ncells 1\nsettle 0\npins 2\nlink 1 1 1\n",
            "plan\n",
            3,
            "",
            "board 4: self link 1\n",
        ),
        (
            TOGGLE,
            "board 1\nchips 1\ncells 1\nsettle 0\npins 2\nlink 0 1 1\nlink 0 1 2\n",
            "plan\n",
            3,
            "",
            "board 5: duplicate link 0 1\n",
        ),
        (
            TOGGLE,
            "board 1\nchips 1\ncells 1\nsettle 0\npins 2\nlink 0 1 2\nlink 1 0 1\n",
            "plan\n",
            3,
            "",
            "board 6: chip 1 uses 3 pins of 2\n",
        ),
    ];
    checks_end(rt.alloc(), TABLE)
}

#[test]
fn an_earlier_stage_of_check_comes_first(rt: HostRuntime) -> Result<(), Fail> {
    const NO_DESIGN: &[(&str, &str)] = &[("d", ""), ("b", ""), ("board", TRIANGLE), ("p", "")];
    const NO_DESIGN_TABLE: &[(&[&str], u8, &str, &str)] = &[(
        CHECK,
        1,
        "",
        "design 2: line 0: no model\n",
    )];
    const TEXTS: &[(&str, &str)] = &[("d", TOGGLE), ("b", ""), ("board", TRIANGLE), ("p", "")];
    const TABLE: &[(&[&str], u8, &str, &str)] = &[
        (&["check", "gone", "b", "p"], 7, "", "read fault: design\n"),
        (&["check", "d", "gone", "p"], 7, "", "read fault: board\n"),
        (
            &["check", "d", "board", "gone"],
            7,
            "",
            "read fault: plan\n",
        ),
        (
            &["check", "d", "b", "gone"],
            3,
            "",
            "board 2: line 1: bad line\n",
        ),
        (&["check", "d", "b"], 2, "", "usage: word 4\n"),
        (&["check", "d", "", "p"], 2, "", "usage: word 3\n"),
        (
            &["check", "d", "b", "p", "unknown=0"],
            2,
            "",
            "usage: word 5\n",
        ),
    ];
    words_end(rt.alloc(), NO_DESIGN, NO_DESIGN_TABLE)?;
    words_end(rt.alloc(), TEXTS, TABLE)
}

/// With at most 64 bytes a read, the design of 78 bytes, the board of 106 and the plan of 119 take three reads each, of
/// which the last finds the end; the line of 12 bytes takes two writes of at most 10.
#[test]
fn each_read_and_write_of_check_may_fail(rt: HostRuntime) -> Result<(), Fail> {
    const TEXTS: &[(&str, &str)] = &[("d", TOGGLE), ("b", TRIANGLE), ("p", TOGGLE_PLAN)];
    const TABLE: &[(u32, Fault, u8, &str, &str)] = &[
        (64, Fault::Read(1), 7, "", "read fault: design\n"),
        (64, Fault::Read(2), 7, "", "read fault: design\n"),
        (64, Fault::Read(3), 7, "", "read fault: design\n"),
        (64, Fault::Read(4), 7, "", "read fault: board\n"),
        (64, Fault::Read(5), 7, "", "read fault: board\n"),
        (64, Fault::Read(6), 7, "", "read fault: board\n"),
        (64, Fault::Read(7), 7, "", "read fault: plan\n"),
        (64, Fault::Read(8), 7, "", "read fault: plan\n"),
        (64, Fault::Read(9), 7, "", "read fault: plan\n"),
        (64, Fault::Read(10), 0, "sound 4 4 2\n", ""),
        (10, Fault::Write(1), 8, "", "write fault\n"),
        (10, Fault::Write(2), 8, "sound 4 4 ", "write fault\n"),
        (10, Fault::Write(3), 0, "sound 4 4 2\n", ""),
    ];
    faults_end(rt.alloc(), CHECK, TEXTS, TABLE)
}

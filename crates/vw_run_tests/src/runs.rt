//! The command `run`: a design on a board, by a plan of its own and by one that is given, has the trace of the design.
use std::alloc::Global;
use std::test::Fail;
use vw_sample_calls::{
    Fault, SEVERAL, batches_are_joined, faults_end, is_stopped, line_of_read, words_end,
};
use vw_samples::{
    CHAIN, CUT_PLAN, FAR_CHAIN, FAR_PLAN, FIVE_GATES, FLIP, FLIP_PLAN, FLIP_TEXTS, FLIP_TRACE,
    FOUR_CELLS, FOUR_GATES, SLOW_TRIANGLE, SMALL_CHAIN, TOGGLE, TOGGLE_PLAN, TOGGLE_ROWS,
    TOGGLE_TEXTS, TOGGLE_TRACE, TRIANGLE,
};

/// The words of a run, over the files d, b and s, with a plan of its own.
const RUN: &[&str] = &["run", "d", "b", "s", "workers=1"];

/// The same with the plan p.
const RUN_GIVEN: &[&str] = &["run", "d", "b", "s", "plan=p", "workers=1"];

#[test]
fn a_run_has_the_trace_of_the_design_by_any_plan(rt: HostRuntime) -> Result<(), Fail> {
    const TABLE: &[(&[&str], u8, &str, &str)] = &[
        (RUN, 0, TOGGLE_TRACE, ""),
        (RUN_GIVEN, 0, TOGGLE_TRACE, ""),
        (
            &["run", "d", "b", "s", "workers=1", "plan=p"],
            0,
            TOGGLE_TRACE,
            "",
        ),
        (
            &["run", "d", "b", "s", "unknown=0", "workers=1", "plan=p"],
            0,
            TOGGLE_TRACE,
            "",
        ),
    ];
    words_end(rt.alloc(), TOGGLE_TEXTS, TABLE)
}

/// The latch that is turned round at each clock, on chip 2 of a chain of two chips. Its value goes two hops to the host.
#[test]
fn a_latch_that_is_sent_over_two_links_is_seen_at_its_own_clock(
    rt: HostRuntime,
) -> Result<(), Fail> {
    const TABLE: &[(&[&str], u8, &str, &str)] = &[
        (RUN, 0, FLIP_TRACE, ""),
        (RUN_GIVEN, 0, FLIP_TRACE, ""),
    ];
    words_end(rt.alloc(), FLIP_TEXTS, TABLE)
}

/// The same latch without an initial value.
#[test]
fn free_latches_of_a_run_start_as_the_setting_says(rt: HostRuntime) -> Result<(), Fail> {
    const TEXTS: &[(&str, &str)] = &[
        (
            "d",
            ".model m\n.outputs q\n.names q d\n0 1\n.latch d q\n.end\n",
        ),
        ("b", CHAIN),
        ("p", FLIP_PLAN),
        ("s", "hold 3\n"),
    ];
    const FROM_0: &str = "trace 1 1 1\n0 0 0\n1 1 1\n2 0 0\nend 3 1\n";
    const FROM_1: &str = "trace 1 1 1\n0 1 1\n1 0 0\n2 1 1\nend 3 0\n";
    const TABLE: &[(&[&str], u8, &str, &str)] = &[
        (RUN, 0, FROM_0, ""),
        (
            &["run", "d", "b", "s", "workers=1", "unknown=1"],
            0,
            FROM_1,
            "",
        ),
        (
            &["run", "d", "b", "s", "unknown=1", "plan=p", "workers=1"],
            0,
            FROM_1,
            "",
        ),
        (
            &["run", "d", "b", "s", "unknown=0", "plan=p", "workers=1"],
            0,
            FROM_0,
            "",
        ),
    ];
    words_end(rt.alloc(), TEXTS, TABLE)
}

#[test]
fn a_batch_of_a_run_goes_on_where_the_one_before_ended(rt: HostRuntime) -> Result<(), Fail> {
    const TEXTS: &[(&str, &str)] = &[
        ("d", TOGGLE),
        ("b", TRIANGLE),
        ("p", TOGGLE_PLAN),
        ("s", "1\nhold 256\n"),
    ];
    batches_are_joined(rt.alloc(), RUN, TEXTS)?;
    batches_are_joined(rt.alloc(), RUN_GIVEN, TEXTS)
}

#[test]
fn wrong_words_of_a_run_are_named_by_their_place(rt: HostRuntime) -> Result<(), Fail> {
    const TABLE: &[(&[&str], u8, &str, &str)] = &[
        (&["run"], 2, "", "usage: word 2\n"),
        (&["run", "d"], 2, "", "usage: word 3\n"),
        (&["run", "d", "b"], 2, "", "usage: word 4\n"),
        (
            &["run", "", "b", "s", "workers=1"],
            2,
            "",
            "usage: word 2\n",
        ),
        // one worker to sixty-four
        (
            &["run", "d", "b", "s", "workers=0"],
            2,
            "",
            "usage: word 5\n",
        ),
        (
            &["run", "d", "b", "s", "workers=65"],
            2,
            "",
            "usage: word 5\n",
        ),
        (
            &["run", "d", "b", "s", "workers=01"],
            2,
            "",
            "usage: word 5\n",
        ),
        (
            &["run", "d", "b", "s", "workers="],
            2,
            "",
            "usage: word 5\n",
        ),
        (&["run", "d", "b", "s", "workers"], 2, "", "usage: word 5\n"),
        (
            &["run", "d", "b", "s", "plan=p", "workers=100"],
            2,
            "",
            "usage: word 6\n",
        ),
        // settings that are wrong, or given a second time
        (
            &["run", "d", "b", "s", "workers=1", "workers=1"],
            2,
            "",
            "usage: word 6\n",
        ),
        (&["run", "d", "b", "s", "plan="], 2, "", "usage: word 5\n"),
        (
            &["run", "d", "b", "s", "workers=1", "plan="],
            2,
            "",
            "usage: word 6\n",
        ),
        (
            &["run", "d", "b", "s", "plan=p", "plan=p", "workers=1"],
            2,
            "",
            "usage: word 6\n",
        ),
        (
            &["run", "d", "b", "s", "workers=1", "unknown=2"],
            2,
            "",
            "usage: word 6\n",
        ),
        (
            &["run", "d", "b", "s", "unknown=0", "unknown=1", "workers=1"],
            2,
            "",
            "usage: word 6\n",
        ),
        (
            &["run", "d", "b", "s", "workers=1", "x"],
            2,
            "",
            "usage: word 6\n",
        ),
        // the other commands have no such settings
        (&["sim", "d", "s", "workers=1"], 2, "", "usage: word 4\n"),
        (&["plan", "d", "b", "plan=p"], 2, "", "usage: word 4\n"),
    ];
    words_end(rt.alloc(), TOGGLE_TEXTS, TABLE)
}

/// The call that has no runtime leaves runs with several workers to the other one, and reads and writes nothing.
#[test]
fn a_run_with_several_workers_is_not_done_alone(rt: HostRuntime) -> Result<(), Fail> {
    const TABLE: &[(&[&str], u8, &str, &str)] = &[
        (&["run", "gone", "b", "s"], SEVERAL, "", ""),
        (&["run", "d", "b", "s", "plan=p"], SEVERAL, "", ""),
        (&["run", "d", "b", "s", "workers=2"], SEVERAL, "", ""),
        (&["run", "d", "b", "s", "workers=64"], SEVERAL, "", ""),
        // in the place of a name a setting is a name
        (&["run", "d", "b", "workers=1"], SEVERAL, "", ""),
    ];
    words_end(rt.alloc(), TOGGLE_TEXTS, TABLE)
}

#[test]
fn each_file_of_a_run_may_be_missing(rt: HostRuntime) -> Result<(), Fail> {
    const TABLE: &[(&[&str], u8, &str, &str)] = &[
        (
            &["run", "gone", "b", "s", "workers=1"],
            7,
            "",
            "read fault: design\n",
        ),
        (
            &["run", "d", "gone", "s", "workers=1"],
            7,
            "",
            "read fault: board\n",
        ),
        (
            &["run", "d", "b", "s", "plan=gone", "workers=1"],
            7,
            "",
            "read fault: plan\n",
        ),
        (
            &["run", "d", "b", "gone", "workers=1"],
            7,
            "",
            "read fault: stimulus\n",
        ),
        (
            &["run", "d", "b", "gone", "plan=p", "workers=1"],
            7,
            "",
            "read fault: stimulus\n",
        ),
    ];
    words_end(rt.alloc(), TOGGLE_TEXTS, TABLE)
}

/// The texts of a design, a board, a plan and a stimulus.
type Texts = (&'static str, &'static str, &'static str, &'static str);

/// How a run ends: its status, what it writes, and its message.
type Ending = (u8, &'static str, &'static str);

/// Asserts how runs end over these texts: with a plan of its own, and with the one of the texts.
fn runs_end(alloc: Global, texts: Texts, own: Ending, given: Ending) -> Result<(), Fail> {
    let (design, board, plan, stimulus) = texts;
    let files = [("d", design), ("b", board), ("p", plan), ("s", stimulus)];
    let table = [
        (RUN, own.0, own.1, own.2),
        (RUN_GIVEN, given.0, given.1, given.2),
    ];
    words_end(alloc, &files, &table)
}

const NO_DESIGN: Ending = (1, "", "design 2: line 0: no model\n");

const NO_BOARD: Ending = (3, "", "board 2: line 1: bad line\n");

const NO_PLAN: Ending = (4, "", "plan 2: line 11\n");

const NO_ROWS: Ending = (5, "", "stimulus 3: line 1: found 2 bits, wanted 1\n");

const DONE: Ending = (0, TOGGLE_TRACE, "");

#[test]
fn the_first_file_that_is_refused_ends_a_run(rt: HostRuntime) -> Result<(), Fail> {
    const TABLE: &[(Texts, Ending, Ending)] = &[
        (("", "", CUT_PLAN, "10"), NO_DESIGN, NO_DESIGN),
        ((TOGGLE, "", CUT_PLAN, "10"), NO_BOARD, NO_BOARD),
        // without `plan=`, the plan isn't read
        ((TOGGLE, TRIANGLE, CUT_PLAN, "10"), NO_ROWS, NO_PLAN),
        ((TOGGLE, TRIANGLE, CUT_PLAN, TOGGLE_ROWS), DONE, NO_PLAN),
        ((TOGGLE, TRIANGLE, TOGGLE_PLAN, "10"), NO_ROWS, NO_ROWS),
        (
            (TOGGLE, SLOW_TRIANGLE, TOGGLE_PLAN, "10"),
            NO_ROWS,
            (4, "", "plan 14: wire 1 sent at 1, usable at 2\n"),
        ),
        (
            (FLIP, SMALL_CHAIN, FLIP_PLAN, "hold 1\n"),
            (0, "trace 1 1 1\n0 0 0\nend 1 1\n", ""),
            (4, "", "plan 6: chip 2 has 2 cells\n"),
        ),
    ];
    for (texts, own, given) in TABLE {
        runs_end(rt.alloc(), *texts, *own, *given)?;
    }
    Ok(())
}

/// Texts that have nothing in them, rows that are held, and a board over whose last link a bit takes three microcycles: by a plan
/// of its own and by the one that is given.
#[test]
fn small_runs_end_alike_by_both_plans(rt: HostRuntime) -> Result<(), Fail> {
    const NOTHING: &str = ".model m\n";
    const EMPTY_PLAN: &str = "plan 1 0 0 1\nchips\nend\n";
    const TABLE: &[((&str, &str, &str, &str), &str)] = &[
        (
            (NOTHING, TRIANGLE, EMPTY_PLAN, "hold 3\n"),
            "trace 1 0 0\n0 - -\n1 - -\n2 - -\nend 3 -\n",
        ),
        (
            (NOTHING, TRIANGLE, EMPTY_PLAN, ""),
            "trace 1 0 0\nend 0 -\n",
        ),
        (
            (TOGGLE, TRIANGLE, TOGGLE_PLAN, ""),
            "trace 1 1 1\nend 0 0\n",
        ),
        (
            (TOGGLE, TRIANGLE, TOGGLE_PLAN, "hold 1\n1\nhold 0\n"),
            "trace 1 1 1\n0 0 0\n1 0 0\nend 2 1\n",
        ),
        ((FLIP, FAR_CHAIN, FAR_PLAN, "hold 4\n"), FLIP_TRACE),
    ];
    for (texts, trace) in TABLE {
        runs_end(rt.alloc(), *texts, (0, *trace, ""), (0, *trace, ""))?;
    }
    Ok(())
}

#[test]
fn cells_without_room_are_refused_where_no_plan_is_given(rt: HostRuntime) -> Result<(), Fail> {
    const PLAN: &str = "plan 1 5 0 1\nchips 1 1 1 2 2\nend\n";
    runs_end(
        rt.alloc(),
        (FIVE_GATES, FOUR_CELLS, PLAN, "10"),
        (6, "", "fit: 5 cells, room for 4\n"),
        (4, "", "plan 6: chip 1 has 3 cells\n"),
    )?;
    runs_end(
        rt.alloc(),
        (FOUR_GATES, FOUR_CELLS, PLAN, "1\n0\n"),
        (0, "trace 1 1 0\n0 1 -\n1 0 -\nend 2 -\n", ""),
        (4, "", "plan 3: 5 cells, wanted 4\n"),
    )
}

/// With at most 64 bytes a read, the design of 78 bytes, the board of 106 and the plan of 119 take three reads each, of
/// which the last finds the end. Of the stimulus, the first read asks for a byte past the limit, and two check the text.
#[test]
fn a_read_of_a_run_that_fails_has_the_line_of_its_file(rt: HostRuntime) -> Result<(), Fail> {
    const TABLE: &[(u32, Fault, u8, &str, &str)] = &[
        (64, Fault::Read(1), 7, "", "read fault: design\n"),
        (64, Fault::Read(3), 7, "", "read fault: design\n"),
        (64, Fault::Read(4), 7, "", "read fault: board\n"),
        (64, Fault::Read(6), 7, "", "read fault: board\n"),
        (64, Fault::Read(7), 7, "", "read fault: plan\n"),
        (64, Fault::Read(9), 7, "", "read fault: plan\n"),
        (64, Fault::Read(10), 7, "", "read fault: stimulus\n"),
        (64, Fault::Read(12), 7, "", "read fault: stimulus\n"),
        (10, Fault::Write(1), 8, "", "write fault\n"),
        (10, Fault::Write(2), 8, "trace 1 1 ", "write fault\n"),
    ];
    faults_end(rt.alloc(), RUN_GIVEN, TOGGLE_TEXTS, TABLE)
}

#[test]
fn each_read_of_a_run_may_fail(rt: HostRuntime) -> Result<(), Fail> {
    // of 78, 106 and 119 bytes 5 are read at a time, and one read finds each end; of the stimulus of 6 bytes the first read
    // asks for one past the limit, three check the text, and two read its rows again
    const STAGES: &[(u64, &str)] = &[
        (17, "read fault: design\n"),
        (40, "read fault: board\n"),
        (65, "read fault: plan\n"),
        (71, "read fault: stimulus\n"),
    ];
    let mut stopped = 0u64;
    for number in 1u64..200 {
        let fault = Fault::Read(number);
        let line = line_of_read(STAGES, number);
        if is_stopped(rt.alloc(), RUN_GIVEN, TOGGLE_TEXTS, fault, 7, line)? {
            break;
        }
        stopped = number;
    }
    assert_eq!(rt; stopped, 71);
    Ok(())
}

#[test]
fn each_write_of_a_run_may_fail(rt: HostRuntime) -> Result<(), Fail> {
    let mut stopped = 0u64;
    for number in 1u64..60 {
        let fault = Fault::Write(number);
        if is_stopped(
            rt.alloc(),
            RUN_GIVEN,
            TOGGLE_TEXTS,
            fault,
            8,
            "write fault\n",
        )? {
            break;
        }
        stopped = number;
    }
    // the trace has 38 bytes, of which 5 are written at a time
    assert_eq!(rt; stopped > 7, true);
    assert_eq!(rt; stopped < 39, true);
    Ok(())
}

/// Refused for its plan, with a message of 15 bytes that takes three calls of at most 5: each may fail, and the status stays.
#[test]
fn a_message_of_a_run_that_fails_changes_no_status(rt: HostRuntime) -> Result<(), Fail> {
    const WORDS: &[&str] = &["run", "d", "b", "s", "plan=b", "workers=1"];
    const TABLE: &[(u32, Fault, u8, &str, &str)] = &[
        (5, Fault::Message(1), 4, "", ""),
        (5, Fault::Message(2), 4, "", "plan "),
        (5, Fault::Message(3), 4, "", "plan 2: li"),
        (5, Fault::Message(4), 4, "", "plan 2: line 1\n"),
    ];
    faults_end(rt.alloc(), WORDS, TOGGLE_TEXTS, TABLE)
}

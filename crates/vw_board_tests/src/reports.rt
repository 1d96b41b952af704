//! The command `report`. Each text was worked out by hand, from the plan and its rules.
use std::alloc::Global;
use std::test::Fail;
use vw_sample_calls::{End, Fault, faults_end, words_end, words_end_so};
use vw_samples::{
    AND, AND_PLAN, FAR_CHAIN, FAR_PLAN, FLIP, ONE_CHIP, TOGGLE, TOGGLE_PLAN, TRIANGLE,
};

/// The words of a report, over the files d, b and p.
const REPORT: &[&str] = &["report", "d", "b", "plan=p"];

/// The toggle on the triangle, with its plan.
const TEXTS: &[(&str, &str)] = &[("d", TOGGLE), ("b", TRIANGLE), ("p", TOGGLE_PLAN)];

/// The input and the latch reach the gate in microcycle 0, and its net goes on in the next one. The gate waits for both alike,
/// so the first that it reads begins the chain.
const TOGGLE_REPORT: &str = "report 1 2 4 4 2 2 2\n\
host 1 1 1 1\n\
chip 1 1 0 1 2 1\n\
chip 2 0 1 1 1 2\n\
link 0 0 1 1 1 1\n\
link 1 0 2 1 1 0\n\
link 2 1 0 1 1 0\n\
link 3 1 2 1 1 1\n\
link 4 2 0 1 1 1\n\
link 5 2 1 1 1 1\n\
chain 2\n\
net en 0 0\n\
hop en 0 0 1 0 0 0 0 1\n\
gate d 1 1\n\
hop d 3 1 2 0 1 0 0 2\n\
end\n";

/// Fails unless the report of a design on a board, by a plan, is this one.
fn is_reported(alloc: Global, texts: [&str; 3], report: &str) -> Result<(), Fail> {
    let [design, board, plan] = texts;
    let texts = [("d", design), ("b", board), ("p", plan)];
    words_end_so(alloc, REPORT, &texts, End::done(report))
}

#[test]
fn a_plan_is_reported(rt: HostRuntime) -> Result<(), Fail> {
    is_reported(rt.alloc(), [TOGGLE, TRIANGLE, TOGGLE_PLAN], TOGGLE_REPORT)
}

/// The latch's bit is sent one microcycle late, and the gate's two, though pins are free; and the period is one more than that.
#[test]
fn slack_of_a_given_plan_is_no_wait_for_pins(rt: HostRuntime) -> Result<(), Fail> {
    const PLAN: &str =
        "plan 1 2 4 6\nchips 1 2\nwire 0 1 1\nhop 0 1 0 0\nwire 1 2 1\nhop 1 2 0 4\nwire 2 0 1\nhop 2 0 0 0\nwire 2 1 1\nhop 2 1 0 1\nend\n";
    const LINES: &str = "report 1 2 4 4 6 2 2\n\
host 1 1 1 1\n\
chip 1 1 0 1 2 1\n\
chip 2 0 1 1 1 2\n\
link 0 0 1 1 1 1\n\
link 1 0 2 1 1 0\n\
link 2 1 0 1 1 0\n\
link 3 1 2 1 1 1\n\
link 4 2 0 1 1 1\n\
link 5 2 1 1 1 1\n\
chain 5\n\
net q 2 0\n\
hop q 5 2 1 0 1 1 0 2\n\
gate d 1 2\n\
hop d 3 1 2 0 4 2 0 5\n\
end\n";
    is_reported(rt.alloc(), [TOGGLE, TRIANGLE, PLAN], LINES)
}

/// The latch's bit goes to the gate by way of the host, behind the one for the host itself, which has the pin first. So the
/// plan has no shortest wires.
#[test]
fn a_wire_that_goes_round_has_no_bound_of_shortest_wires(rt: HostRuntime) -> Result<(), Fail> {
    const PLAN: &str =
        "plan 1 2 4 4\nchips 1 2\nwire 0 1 1\nhop 0 1 0 0\nwire 1 2 1\nhop 1 2 0 3\nwire 2 0 1\nhop 2 0 0 0\nwire 2 1 2\nhop 2 0 0 1\nhop 0 1 0 2\nend\n";
    const LINES: &str = "report 1 2 4 5 4 2 -\n\
host 1 1 1 1\n\
chip 1 1 0 1 2 1\n\
chip 2 0 1 1 1 2\n\
link 0 0 1 1 1 2\n\
link 1 0 2 1 1 0\n\
link 2 1 0 1 1 0\n\
link 3 1 2 1 1 1\n\
link 4 2 0 1 1 2\n\
link 5 2 1 1 1 0\n\
chain 4\n\
net q 2 0\n\
hop q 4 2 0 0 1 1 1 2\n\
hop q 0 0 1 0 2 0 0 3\n\
gate d 1 3\n\
hop d 3 1 2 0 3 0 0 4\n\
end\n";
    is_reported(rt.alloc(), [TOGGLE, TRIANGLE, PLAN], LINES)
}

/// Two inputs share one pin. Any plan needs two microcycles for them, and one that sends the gate's net behind both a third.
#[test]
fn a_chain_shows_what_waits_for_pins(rt: HostRuntime) -> Result<(), Fail> {
    const LINES: &str = "report 1 1 3 3 3 2 3\n\
host 2 1 1 2\n\
chip 1 1 0 1 2 1\n\
link 0 0 1 1 1 2\n\
link 1 1 0 1 1 1\n\
chain 3\n\
net b 0 0\n\
hop b 0 0 1 0 1 1 1 2\n\
gate y 1 2\n\
hop y 1 1 0 0 2 0 0 3\n\
end\n";
    is_reported(rt.alloc(), [AND, ONE_CHIP, AND_PLAN], LINES)
}

/// A bit that takes three microcycles, and one more.
#[test]
fn hops_arrive_after_their_delays(rt: HostRuntime) -> Result<(), Fail> {
    const LINES: &str = "report 1 2 1 2 4 4 4\n\
host 0 1 1 0\n\
chip 1 0 0 2 0 0\n\
chip 2 1 1 2 0 1\n\
link 0 0 1 1 1 0\n\
link 1 1 0 1 1 1\n\
link 2 1 2 1 1 0\n\
link 3 2 1 1 3 1\n\
chain 4\n\
net q 2 0\n\
hop q 3 2 1 0 0 0 0 3\n\
hop q 1 1 0 0 3 0 0 4\n\
end\n";
    is_reported(rt.alloc(), [FLIP, FAR_CHAIN, FAR_PLAN], LINES)
}

/// A gate takes two microcycles to settle, longer than the wire of the latch.
#[test]
fn a_chain_ends_with_the_latch_that_waits(rt: HostRuntime) -> Result<(), Fail> {
    const BOARD: &str = "board 1\nchips 1\ncells 2\nsettle 2\npins 2\nlink 0 1 1\nlink 1 0 1\n";
    const PLAN: &str = "plan 1 2 1 2\nchips 1 1\nwire 1 0 1\nhop 1 0 0 0\nend\n";
    const LINES: &str = "report 1 2 1 1 2 2 2\n\
host 0 1 1 0\n\
chip 1 1 1 2 0 1\n\
link 0 0 1 1 1 0\n\
link 1 1 0 1 1 1\n\
chain 2\n\
net d 1 2\n\
latch q 1 2\n\
end\n";
    is_reported(rt.alloc(), [FLIP, BOARD, PLAN], LINES)
}

#[test]
fn an_empty_design_is_reported(rt: HostRuntime) -> Result<(), Fail> {
    const TEXTS: &[(&str, &str)] = &[("d", ".model m\n.end\n"), ("b", ONE_CHIP)];
    const LINES: &str = "report 1 0 0 0 1 1 1\n\
host 0 0 0 0\n\
chip 1 0 0 1 0 0\n\
link 0 0 1 1 1 0\n\
link 1 1 0 1 1 0\n\
chain 0\n\
end\n";
    words_end_so(rt.alloc(), &["report", "d", "b"], TEXTS, End::done(LINES))
}

/// The gate's net is also sent to the host, where it is watched: a wire, an output and a hop more.
#[test]
fn a_watched_net_has_a_wire_in_a_report(rt: HostRuntime) -> Result<(), Fail> {
    const PLAN: &str =
        "plan 1 2 5 2\nchips 1 2\nwire 0 1 1\nhop 0 1 0 0\nwire 1 0 1\nhop 1 0 0 1\nwire 1 2 1\nhop 1 2 0 1\nwire 2 0 1\nhop 2 0 0 0\nwire 2 1 1\nhop 2 1 0 0\nend\n";
    const TEXTS: &[(&str, &str)] = &[("d", TOGGLE), ("b", TRIANGLE), ("p", PLAN)];
    const LINES: &str = "report 1 2 5 5 2 2 2\n\
host 1 2 2 1\n\
chip 1 1 0 1 2 2\n\
chip 2 0 1 1 1 2\n\
link 0 0 1 1 1 1\n\
link 1 0 2 1 1 0\n\
link 2 1 0 1 1 1\n\
link 3 1 2 1 1 1\n\
link 4 2 0 1 1 1\n\
link 5 2 1 1 1 1\n\
chain 2\n\
net en 0 0\n\
hop en 0 0 1 0 0 0 0 1\n\
gate d 1 1\n\
hop d 2 1 0 0 1 0 0 2\n\
end\n";
    let words = &["report", "d", "b", "probe=d", "plan=p"];
    words_end_so(rt.alloc(), words, TEXTS, End::done(LINES))
}

#[test]
fn a_report_is_refused_by_its_files(rt: HostRuntime) -> Result<(), Fail> {
    const SMALL: &[(&str, &str)] = &[("d", TOGGLE), ("b", ONE_CHIP), ("p", "plan\n")];
    const SMALL_TABLE: &[(&[&str], u8, &str, &str)] = &[
        (&["report", "d", "b"], 6, "", "fit: 2 cells, room for 1\n"),
        (REPORT, 4, "", "plan 2: line 1\n"),
        (
            &["report", "d", "b", "probe=x"],
            1,
            "",
            "design 26: no net x\n",
        ),
        (
            &["report", "d", "gone", "probe=x"],
            1,
            "",
            "design 26: no net x\n",
        ),
        (&["report", "d", "p"], 3, "", "board 2: line 1: bad line\n"),
    ];
    const LATE: &str =
        "plan 1 2 4 1\nchips 1 2\nwire 0 1 1\nhop 0 1 0 0\nwire 1 2 1\nhop 1 2 0 0\nwire 2 0 1\nhop 2 0 0 0\nwire 2 1 1\nhop 2 1 0 0\nend\n";
    const UNSOUND: &[(&str, &str)] = &[("d", TOGGLE), ("b", TRIANGLE), ("p", LATE)];
    words_end(rt.alloc(), SMALL, SMALL_TABLE)?;
    words_end(
        rt.alloc(),
        UNSOUND,
        &[(REPORT, 4, "", "plan 14: wire 1 sent at 0, usable at 1\n")],
    )
}

#[test]
fn wrong_words_of_a_report_have_their_place(rt: HostRuntime) -> Result<(), Fail> {
    const TABLE: &[(&[&str], u8, &str, &str)] = &[
        (&["report"], 2, "", "usage: word 2\n"),
        (&["report", "d"], 2, "", "usage: word 3\n"),
        (&["report", "d", "b", "p"], 2, "", "usage: word 4\n"),
        (&["report", "d", "b", "chips=p"], 2, "", "usage: word 4\n"),
        (&["report", "d", "b", "workers=1"], 2, "", "usage: word 4\n"),
        (
            &["report", "d", "b", "plan=p", "plan=p"],
            2,
            "",
            "usage: word 5\n",
        ),
        (
            &["report", "d", "b", "plan=gone"],
            7,
            "",
            "read fault: plan\n",
        ),
        (
            &["report", "d", "gone", "plan=p"],
            7,
            "",
            "read fault: board\n",
        ),
        (
            &["report", "gone", "b", "plan=p"],
            7,
            "",
            "read fault: design\n",
        ),
    ];
    words_end(rt.alloc(), TEXTS, TABLE)
}

#[test]
fn each_read_and_write_of_a_report_may_fail(rt: HostRuntime) -> Result<(), Fail> {
    const TABLE: &[(u32, Fault, u8, &str, &str)] = &[
        (65_536, Fault::Read(1), 7, "", "read fault: design\n"),
        (65_536, Fault::Read(3), 7, "", "read fault: board\n"),
        (65_536, Fault::Read(5), 7, "", "read fault: plan\n"),
        (65_536, Fault::Write(1), 8, "", "write fault\n"),
        (6, Fault::Write(3), 8, "report 1 2 4", "write fault\n"),
    ];
    faults_end(rt.alloc(), REPORT, TEXTS, TABLE)
}

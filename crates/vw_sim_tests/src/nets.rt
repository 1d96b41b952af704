//! The command `nets`: a design in numbers and names.
use crate::hierarchy::HALVES;
use std::test::Fail;
use vw_sample_calls::{Fault, faults_end, words_end};
use vw_samples::TOGGLE_RUN;

/// The toggle: its column, its table, its latch and its output.
const TOGGLE_NETS: &str = "nets 1 1 2 1\n\
column 0 en\n\
gate 1 d 0 2\n\
latch 2 q 1\n\
output 2 q\n\
end\n";

#[test]
fn nets_of_three_levels_have_their_paths_and_probes_come_last(rt: HostRuntime) -> Result<(), Fail> {
    const TEXTS: &[(&str, &str)] = &[("d", HALVES)];
    const TABLE: &[(&[&str], u8, &str, &str)] = &[(
        &["nets", "d", "probe=t", "probe=2/1/t"],
        0,
        "nets 1 2 11 4\n\
column 0 a\n\
column 1 b\n\
gate 2 1/t 0 1\n\
gate 3 1/1/t 2\n\
latch 4 1/1/q 3\n\
gate 5 1/y 2 4\n\
latch 6 q 5\n\
gate 7 2/t 1 6\n\
gate 8 2/1/t 7\n\
latch 9 2/1/q 8\n\
gate 10 2/y 7 9\n\
gate 11 y 10\n\
gate 12 z 6\n\
output 11 y\n\
output 12 z\n\
output 5 t\n\
output 8 2/1/t\n\
end\n",
        "",
    )];
    words_end(rt.alloc(), TEXTS, TABLE)
}

#[test]
fn nets_have_the_order_of_the_text(rt: HostRuntime) -> Result<(), Fail> {
    const TEXTS: &[(&str, &str)] = &[
        // an output that is a column, a gate that reads a net twice, in another order than that of the numbers, and a clock
        (
            "d",
            ".model m\n.inputs clk b a\n.outputs y b\n.names q a q b y\n1111 1\n.latch y q re clk 0\n.names one\n1\n",
        ),
        ("none", ".model m\n"),
        ("bad", ".model m\n.names a y\n"),
    ];
    const TABLE: &[(&[&str], u8, &str, &str)] = &[
        (
            &["nets", "d"],
            0,
            "nets 1 2 3 2\ncolumn 0 b\ncolumn 1 a\ngate 2 y 3 1 3 0\nlatch 3 q 2\ngate 4 one\noutput 2 y\noutput 0 b\nend\n",
            "",
        ),
        (&["nets", "none"], 0, "nets 1 0 0 0\nend\n", ""),
        (&["nets", "bad"], 1, "", "design 19: undriven a\n"),
    ];
    words_end(rt.alloc(), TEXTS, TABLE)
}

#[test]
fn nets_take_a_design_and_probes(rt: HostRuntime) -> Result<(), Fail> {
    const TABLE: &[(&[&str], u8, &str, &str)] = &[
        (&["nets", "d"], 0, TOGGLE_NETS, ""),
        (&["nets"], 2, "", "usage: word 2\n"),
        (&["nets", "d", "s"], 2, "", "usage: word 3\n"),
        (&["nets", "d", "unknown=0"], 2, "", "usage: word 3\n"),
        (&["nets", "missing"], 7, "", "read fault: design\n"),
    ];
    words_end(rt.alloc(), TOGGLE_RUN, TABLE)
}

#[test]
fn what_stops_nets_leaves_a_front_of_the_text(rt: HostRuntime) -> Result<(), Fail> {
    const TABLE: &[(u32, Fault, u8, &str, &str)] = &[
        (4096, Fault::None, 0, TOGGLE_NETS, ""),
        (4096, Fault::Read(1), 7, "", "read fault: design\n"),
        (4096, Fault::Write(1), 8, "", "write fault\n"),
        (10, Fault::Write(2), 8, "nets 1 1 2", "write fault\n"),
    ];
    faults_end(rt.alloc(), &["nets", "d"], TOGGLE_RUN, TABLE)
}

//! The command `wave`: the run of a design as a value change dump.
use std::test::Fail;
use vw_sample_calls::{Fault, faults_end, words_end};
use vw_samples::{TOGGLE, TOGGLE_RUN};

/// The words of a wave, over the files d and s.
const WAVE: &[&str] = &["wave", "d", "s"];

/// The wave of the toggle over its stimulus, written by hand.
const TOGGLE_WAVE: &str = "$timescale 1 s $end\n\
$scope module design $end\n\
$var wire 1 ! n_q $end\n\
$var wire 1 \" n_q $end\n\
$upscope $end\n\
$enddefinitions $end\n\
#0\n\
$dumpvars\n\
0!\n\
0\"\n\
$end\n\
#1\n\
1!\n\
1\"\n\
#2\n\
0!\n\
0\"\n\
#3\n";

/// The same with a probe, and without a clock.
const PROBED_WAVE: &str = "$timescale 1 s $end\n\
$scope module design $end\n\
$var wire 1 ! n_q $end\n\
$var wire 1 \" n_d $end\n\
$var wire 1 # n_q $end\n\
$upscope $end\n\
$enddefinitions $end\n\
#0\n\
$dumpvars\n\
0!\n\
1\"\n\
0#\n\
$end\n\
#1\n\
1!\n\
0\"\n\
1#\n\
#2\n\
0!\n\
0#\n\
#3\n";

const EMPTY_WAVE: &str = "$timescale 1 s $end\n\
$scope module design $end\n\
$var wire 1 ! n_q $end\n\
$var wire 1 \" n_q $end\n\
$upscope $end\n\
$enddefinitions $end\n\
#0\n";

/// The toggle at rest for 256 clocks, and then in two more.
const LATE_WAVE: &str = "$timescale 1 s $end\n\
$scope module design $end\n\
$var wire 1 ! n_q $end\n\
$var wire 1 \" n_q $end\n\
$upscope $end\n\
$enddefinitions $end\n\
#0\n\
$dumpvars\n\
0!\n\
0\"\n\
$end\n\
#256\n\
1!\n\
1\"\n\
#257\n\
0!\n\
0\"\n\
#258\n";

/// A latch in a placed model, and an output whose name has a dot.
const NAMED_WAVE: &str = "$timescale 1 s $end\n\
$scope module design $end\n\
$var wire 1 ! n_x_y $end\n\
$var wire 1 \" n_a $end\n\
$var wire 1 # n_1_o $end\n\
$upscope $end\n\
$enddefinitions $end\n\
#0\n\
$dumpvars\n\
1!\n\
1\"\n\
1#\n\
$end\n\
#1\n";

#[test]
fn a_toggle_has_its_wave_in_pieces_of_any_size(rt: HostRuntime) -> Result<(), Fail> {
    const TABLE: &[(u32, Fault, u8, &str, &str)] = &[
        (1, Fault::None, 0, TOGGLE_WAVE, ""),
        (10, Fault::None, 0, TOGGLE_WAVE, ""),
        (4096, Fault::None, 0, TOGGLE_WAVE, ""),
    ];
    faults_end(rt.alloc(), WAVE, TOGGLE_RUN, TABLE)
}

#[test]
fn outputs_probes_and_latches_are_the_signals(rt: HostRuntime) -> Result<(), Fail> {
    const NAMED: &[(&str, &str)] = &[
        (
            "d",
            ".model m\n.inputs a\n.outputs x.y\n.subckt t i=a o=x.y\n.end\n.model t\n.inputs i\n.outputs o\n.latch i o 3\n.end\n",
        ),
        ("s", "1\n"),
    ];
    words_end(
        rt.alloc(),
        TOGGLE_RUN,
        &[(&["wave", "d", "s", "probe=d"], 0, PROBED_WAVE, "")],
    )?;
    words_end(
        rt.alloc(),
        NAMED,
        &[(
            &["wave", "d", "s", "unknown=1", "probe=a"],
            0,
            NAMED_WAVE,
            "",
        )],
    )
}

#[test]
fn a_design_at_rest_writes_nothing(rt: HostRuntime) -> Result<(), Fail> {
    const LATE: &[(&str, &str)] = &[("d", TOGGLE), ("s", "hold 255\n1\n1\n1\n")];
    const EMPTY: &[(&str, &str)] = &[("d", TOGGLE), ("s", "")];
    words_end(rt.alloc(), LATE, &[(WAVE, 0, LATE_WAVE, "")])?;
    words_end(rt.alloc(), EMPTY, &[(WAVE, 0, EMPTY_WAVE, "")])
}

#[test]
fn what_stops_a_wave_is_named(rt: HostRuntime) -> Result<(), Fail> {
    const WORDS: &[(&[&str], u8, &str, &str)] = &[
        (&["wave"], 2, "", "usage: word 2\n"),
        (&["wave", "d"], 2, "", "usage: word 3\n"),
        (&["wave", "d", "s", "workers=1"], 2, "", "usage: word 4\n"),
        (&["wave", "missing", "s"], 7, "", "read fault: design\n"),
        (&["wave", "d", "missing"], 7, "", "read fault: stimulus\n"),
        (
            &["wave", "d", "s", "probe=x"],
            1,
            "",
            "design 26: no net x\n",
        ),
    ];
    const FAULTS: &[(u32, Fault, u8, &str, &str)] = &[
        (65_536, Fault::Read(1), 7, "", "read fault: design\n"),
        (65_536, Fault::Read(3), 7, "", "read fault: stimulus\n"),
        (65_536, Fault::Write(1), 8, "", "write fault\n"),
        (5, Fault::Write(3), 8, "$timescale", "write fault\n"),
    ];
    words_end(rt.alloc(), TOGGLE_RUN, WORDS)?;
    faults_end(rt.alloc(), WAVE, TOGGLE_RUN, FAULTS)
}

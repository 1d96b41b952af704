//! The command `sim`: small runs, and the faults of their words, texts, reads and writes.
use std::test::Fail;
use vw_sample_calls::{Fault, SIM, designs_run, faults_end, stimuli_are_refused, words_end};
use vw_samples::{TOGGLE, TOGGLE_RUN, TOGGLE_TRACE};

#[test]
fn a_toggle_runs_in_pieces_of_any_size(rt: HostRuntime) -> Result<(), Fail> {
    const TABLE: &[(u32, Fault, u8, &str, &str)] = &[
        (1, Fault::None, 0, TOGGLE_TRACE, ""),
        (10, Fault::None, 0, TOGGLE_TRACE, ""),
        (4096, Fault::None, 0, TOGGLE_TRACE, ""),
    ];
    faults_end(rt.alloc(), SIM, TOGGLE_RUN, TABLE)
}

#[test]
fn wrong_words_are_named_by_their_place(rt: HostRuntime) -> Result<(), Fail> {
    const TABLE: &[(&[&str], u8, &str, &str)] = &[
        (&[], 2, "", "usage: word 1\n"),
        (&["fly"], 2, "", "usage: word 1\n"),
        (&["", "d", "s"], 2, "", "usage: word 1\n"),
        (&["sim"], 2, "", "usage: word 2\n"),
        (&["sim", "", "s"], 2, "", "usage: word 2\n"),
        (&["sim", "d"], 2, "", "usage: word 3\n"),
        (&["sim", "d", ""], 2, "", "usage: word 3\n"),
        (&["sim", "d", "s", "x"], 2, "", "usage: word 4\n"),
        (&["sim", "d", "s", "unknown=2"], 2, "", "usage: word 4\n"),
        (&["sim", "d", "s", "unknown="], 2, "", "usage: word 4\n"),
        (
            &["sim", "d", "s", "unknown=0", "x"],
            2,
            "",
            "usage: word 5\n",
        ),
        (
            &["sim", "d", "s", "unknown=1", "unknown=0"],
            2,
            "",
            "usage: word 5\n",
        ),
    ];
    words_end(rt.alloc(), TOGGLE_RUN, TABLE)
}

#[test]
fn free_latches_start_as_the_setting_says(rt: HostRuntime) -> Result<(), Fail> {
    const TEXTS: &[(&str, &str)] = &[
        (
            "d",
            ".model m\n.inputs a\n.outputs p q r\n.latch a p 2\n.latch a q\n.latch a r 0\n",
        ),
        ("s", "1\n"),
    ];
    const TABLE: &[(&[&str], u8, &str, &str)] = &[
        (SIM, 0, "trace 1 3 3\n0 000 000\nend 1 111\n", ""),
        (
            &["sim", "d", "s", "unknown=0"],
            0,
            "trace 1 3 3\n0 000 000\nend 1 111\n",
            "",
        ),
        (
            &["sim", "d", "s", "unknown=1"],
            0,
            "trace 1 3 3\n0 110 110\nend 1 111\n",
            "",
        ),
    ];
    words_end(rt.alloc(), TEXTS, TABLE)
}

#[test]
fn a_missing_file_is_a_read_fault(rt: HostRuntime) -> Result<(), Fail> {
    const TABLE: &[(&[&str], u8, &str, &str)] = &[
        (&["sim", "unknown=0", "s"], 7, "", "read fault: design\n"),
        (&["sim", "missing", "s"], 7, "", "read fault: design\n"),
        (&["sim", "d", "missing"], 7, "", "read fault: stimulus\n"),
    ];
    words_end(rt.alloc(), TOGGLE_RUN, TABLE)
}

#[test]
fn each_fault_of_a_stimulus_has_its_line(rt: HostRuntime) -> Result<(), Fail> {
    const TABLE: &[(&str, &str)] = &[
        ("2", "stimulus 2: line 1: bad line\n"),
        ("10", "stimulus 3: line 1: found 2 bits, wanted 1\n"),
        ("1\n\n-\n", "stimulus 3: line 3: found 0 bits, wanted 1\n"),
        (
            "1\n0\n01\n2\n",
            "stimulus 3: line 3: found 2 bits, wanted 1\n",
        ),
        ("1\n1x\n", "stimulus 2: line 2: bad line\n"),
        ("1 0\n", "stimulus 2: line 1: bad line\n"),
        ("# none\n1\nhold 01\n", "stimulus 2: line 3: bad line\n"),
        ("hold 4294967296\n", "stimulus 2: line 1: bad line\n"),
        ("hold 4294967295\n1\n2\n", "stimulus 4: 4294967296 clocks\n"),
    ];
    stimuli_are_refused(rt.alloc(), TOGGLE, TABLE)
}

#[test]
fn rows_may_be_held_and_commented(rt: HostRuntime) -> Result<(), Fail> {
    const TABLE: &[(&str, &str, &str)] = &[
        // the row before, at first one of zeros
        (
            TOGGLE,
            "hold 1 # off\n\n 1 \nhold 2\nhold 0\n0\n",
            "trace 1 1 1\n0 0 0\n1 0 0\n2 1 1\n3 0 0\n4 1 1\nend 5 1\n",
        ),
        // a design without columns has rows without bits
        (
            ".model m\n.inputs\n.outputs q\n.names q d\n0 1\n.latch d q 0\n.end\n",
            "-\nhold 2\n",
            "trace 1 1 1\n0 0 0\n1 1 1\n2 0 0\nend 3 1\n",
        ),
        // a row of zeros first, and nothing for `hold 0`
        (
            TOGGLE,
            "hold 1\n1\nhold 0\n",
            "trace 1 1 1\n0 0 0\n1 0 0\nend 2 1\n",
        ),
        // no inputs, no outputs, no latches
        (
            ".model m\n",
            "hold 3\n",
            "trace 1 0 0\n0 - -\n1 - -\n2 - -\nend 3 -\n",
        ),
        // tables without inputs: without rows, with the row 1, and with the row 0
        (
            ".model m\n.outputs k\n.names k\n",
            "hold 1\n",
            "trace 1 1 0\n0 0 -\nend 1 -\n",
        ),
        (
            ".model m\n.outputs k\n.names k\n1\n",
            "hold 1\n",
            "trace 1 1 0\n0 1 -\nend 1 -\n",
        ),
        (
            ".model m\n.outputs k\n.names k\n0\n",
            "hold 1\n",
            "trace 1 1 0\n0 0 -\nend 1 -\n",
        ),
    ];
    designs_run(rt.alloc(), TABLE)
}

#[test]
fn a_design_without_inputs_has_rows_without_bits(rt: HostRuntime) -> Result<(), Fail> {
    let design = ".model m\n.inputs\n.outputs\n.end\n";
    const TABLE: &[(&str, &str)] = &[
        ("1\n", "stimulus 3: line 1: found 1 bits, wanted 0\n"),
        ("- -\n", "stimulus 2: line 1: bad line\n"),
        ("--\n", "stimulus 2: line 1: bad line\n"),
    ];
    stimuli_are_refused(rt.alloc(), design, TABLE)
}

#[test]
fn designs_do_what_they_say(rt: HostRuntime) -> Result<(), Fail> {
    const TABLE: &[(&str, &str, &str)] = &[
        // no rows at all; the last line may lack its end
        (TOGGLE, "", "trace 1 1 1\nend 0 0\n"),
        (TOGGLE, "1", "trace 1 1 1\n0 0 0\nend 1 1\n"),
        // a table without rows, one that is always 1, and one of two inputs of which one doesn't matter
        (
            ".model m\n.inputs a b\n.outputs z o y\n.names z\n.names o\n1\n.names a b y\n-1 1\n.end\n",
            "00\n01\n10\n11\n",
            "trace 1 3 0\n0 010 -\n1 011 -\n2 010 -\n3 011 -\nend 4 -\n",
        ),
        // two latches that exchange their values, the second of which starts at 1
        (
            ".model m\n.inputs a\n.outputs p\n.latch q p 0\n.latch p q 1\n.end\n",
            "0\n0\n0\n",
            "trace 1 1 2\n0 0 01\n1 1 10\n2 0 01\nend 3 10\n",
        ),
        // nothing at all
        (
            ".model m\n.inputs\n.outputs\n.end\n",
            "",
            "trace 1 0 0\nend 0 -\n",
        ),
        // an input is an output, and nothing else is there
        (
            ".model m\n.inputs a\n.outputs a\n.end\n",
            "1\n0\n",
            "trace 1 1 0\n0 1 -\n1 0 -\nend 2 -\n",
        ),
        // a gate of a gate, and a latch of the second
        (
            ".model m\n.inputs a b\n.outputs x q\n.names a b n\n11 1\n.names n x\n0 1\n.latch x q 1\n.end\n",
            "11\n10\n",
            "trace 1 2 1\n0 01 1\n1 10 0\nend 2 1\n",
        ),
    ];
    designs_run(rt.alloc(), TABLE)
}

/// The reads of the design are the first 11, of at most 8 bytes each. Of those of the stimulus, the first asks for a byte past
/// the limit, two check the text, and one reads its rows again, when the first line of the trace is written.
#[test]
fn each_read_may_fail(rt: HostRuntime) -> Result<(), Fail> {
    const TABLE: &[(u32, Fault, u8, &str, &str)] = &[
        (8, Fault::Read(1), 7, "", "read fault: design\n"),
        (8, Fault::Read(2), 7, "", "read fault: design\n"),
        (8, Fault::Read(3), 7, "", "read fault: design\n"),
        (8, Fault::Read(4), 7, "", "read fault: design\n"),
        (8, Fault::Read(5), 7, "", "read fault: design\n"),
        (8, Fault::Read(6), 7, "", "read fault: design\n"),
        (8, Fault::Read(7), 7, "", "read fault: design\n"),
        (8, Fault::Read(8), 7, "", "read fault: design\n"),
        (8, Fault::Read(9), 7, "", "read fault: design\n"),
        (8, Fault::Read(10), 7, "", "read fault: design\n"),
        (8, Fault::Read(11), 7, "", "read fault: design\n"),
        (8, Fault::Read(12), 7, "", "read fault: stimulus\n"),
        (8, Fault::Read(13), 7, "", "read fault: stimulus\n"),
        (8, Fault::Read(14), 7, "", "read fault: stimulus\n"),
        (
            8,
            Fault::Read(15),
            7,
            "trace 1 1 1\n",
            "read fault: stimulus\n",
        ),
        (8, Fault::Read(16), 0, TOGGLE_TRACE, ""),
    ];
    faults_end(rt.alloc(), SIM, TOGGLE_RUN, TABLE)
}

/// The first line takes two calls of at most 10 bytes, the three clocks take two, and the last line takes one.
#[test]
fn each_write_may_fail(rt: HostRuntime) -> Result<(), Fail> {
    const TABLE: &[(u32, Fault, u8, &str, &str)] = &[
        (10, Fault::Write(1), 8, "", "write fault\n"),
        (10, Fault::Write(2), 8, "trace 1 1 ", "write fault\n"),
        (10, Fault::Write(3), 8, "trace 1 1 1\n", "write fault\n"),
        (
            10,
            Fault::Write(4),
            8,
            "trace 1 1 1\n0 0 0\n1 1 ",
            "write fault\n",
        ),
        (
            10,
            Fault::Write(5),
            8,
            "trace 1 1 1\n0 0 0\n1 1 1\n2 0 0\n",
            "write fault\n",
        ),
        (10, Fault::Write(6), 0, TOGGLE_TRACE, ""),
    ];
    faults_end(rt.alloc(), SIM, TOGGLE_RUN, TABLE)
}

/// A message of 14 bytes takes three calls of at most 5.
#[test]
fn a_fault_of_err_changes_no_status(rt: HostRuntime) -> Result<(), Fail> {
    const TABLE: &[(u32, Fault, u8, &str, &str)] = &[
        (5, Fault::Message(1), 2, "", ""),
        (5, Fault::Message(2), 2, "", "usage"),
        (5, Fault::Message(3), 2, "", "usage: wor"),
        (5, Fault::Message(4), 2, "", "usage: word 1\n"),
    ];
    faults_end(rt.alloc(), &["fly"], TOGGLE_RUN, TABLE)
}

//! What designs do, and which are refused.
use std::alloc::{AllocError, Global};
use std::test::Fail;
use vw_sample_calls::{
    End, Fault, Large, MOST, REFUSED, Ran, SIM, are_found, call_over, designs_are_refused,
    designs_run, file, is_status, large_designs_end, run_ends,
};
use vw_samples::TOGGLE_TRACE;

#[test]
fn texts_of_other_tools_run(rt: HostRuntime) -> Result<(), Fail> {
    const TABLE: &[(&str, &str, &str)] = &[
        // a comment, a continued line, and a latch of three words that starts at the free value
        (
            "# continued line\n.model top\n.inputs \\\n a b\n.outputs y\n.latch n1 q 2\n.names a b n1\n11 1\n.names q y\n1 1\n.end\n",
            "11\n00\n",
            "trace 1 1 1\n0 0 0\n1 1 1\nend 2 0\n",
        ),
        // a table by the inputs for which it is 0; nothing ends the model
        (
            ".model m\n.inputs a b\n.outputs y\n.names a b y\n11 0\n",
            "00\n01\n10\n11\n",
            "trace 1 1 0\n0 1 -\n1 1 -\n2 1 -\n3 0 -\nend 4 -\n",
        ),
        // ports on several lines, and a latch of two words
        (
            ".model m\n.outputs q\n.inputs a\n.inputs b\n.outputs b\n.latch a q\n.end\n",
            "11\n00\n",
            "trace 1 2 1\n0 01 0\n1 10 1\nend 2 0\n",
        ),
        // returns before the newlines, a blank in front, and a latch whose start is unknown
        (
            "\t.model m\r\n.inputs a\r\n.outputs q\r\n.latch a q 3\r\n.end\r\n",
            "1\n",
            "trace 1 1 1\n0 0 0\nend 1 1\n",
        ),
        // constants without a row and with one of either kind
        (
            ".model m\n.outputs z o i\n.names z\n.names o\n1\n.names i\n0\n",
            "",
            "trace 1 3 0\nend 0 -\n",
        ),
    ];
    designs_run(rt.alloc(), TABLE)
}

#[test]
fn each_fault_of_a_design_has_its_line(rt: HostRuntime) -> Result<(), Fail> {
    const TABLE: &[(&str, &str)] = &[
        ("", "design 2: line 0: no model\n"),
        ("\n# nothing\n", "design 2: line 0: no model\n"),
        (
            ".inputs a\n.outputs a\n.end\n",
            "design 2: line 1: no model\n",
        ),
        (
            ".model m\n.inputs a\n.outputs a\n.end\n.end\n",
            "design 2: line 5: no model\n",
        ),
        (
            ".model m\n.gate nand2 A=a B=b O=c\n",
            "design 3: line 2: unsupported .gate\n",
        ),
        (
            ".model m\n.latch a\n",
            "design 4: line 2: wrong number of words\n",
        ),
        (
            ".model m\n.inputs a\n.outputs a\n1 1\n.end\n",
            "design 5: line 4: bad row\n",
        ),
        (
            ".model m\n.inputs a b\n.outputs y\n.names a b y\n11 0\n00 1\n",
            "design 6: line 6: rows of both kinds\n",
        ),
        (
            ".model m\n.inputs a\n.outputs q\n.latch a q ah a 0\n",
            "design 8: line 4: bad latch type\n",
        ),
        (
            ".model m\n.inputs a\n.outputs q\n.latch a q re\n",
            "design 9: line 4: bad initial value\n",
        ),
        (
            ".model m\n.model m\n",
            "design 10: line 2: duplicate model\n",
        ),
        (
            ".model m\n.inputs a\n.inputs a\n",
            "design 11: line 3: duplicate port\n",
        ),
        (
            ".model m\n.subckt n a=\n",
            "design 12: line 2: bad binding\n",
        ),
    ];
    designs_are_refused(rt.alloc(), TABLE)
}

#[test]
fn a_table_of_129_inputs_is_refused(rt: HostRuntime) -> Result<(), Fail> {
    const TABLE: &[Large] = &[Large {
        design: &[
            (1, ".model m\n.inputs a\n.outputs b\n.names"),
            (129, " a"),
            (1, " b\n"),
        ],
        err: &[(1, "design 7: line 4: more than 128 inputs\n")],
        ..REFUSED
    }];
    large_designs_end(rt.alloc(), TABLE)
}

/// A run of a design that need not be text.
fn run_of(alloc: Global, design: &[u8]) -> Result<Ran, AllocError> {
    let mut files = Vec::new(alloc);
    files.push(file(alloc, "d", design)?)?;
    call_over(alloc, SIM, files, MOST, Fault::None)
}

#[test]
fn a_word_is_shown_as_its_bytes(rt: HostRuntime) -> Result<(), Fail> {
    const DESIGN: &[u8] = b".model m\n.\x00\xff # a comment\n";
    const LINE: &[u8] = b"design 3: line 2: unsupported .\x00\xff\n";
    let ran = run_of(rt.alloc(), DESIGN)?;
    are_found(ran.err.bytes(), LINE, "bytes")?;
    is_status(ran.status, 1, "bytes")
}

/// Fails unless a simulation of each of these fronts of the toggle, over its stimulus, ends so.
fn fronts_end(alloc: Global, table: &[(&str, u8, &str, &str)]) -> Result<(), Fail> {
    for (front, status, out, err) in table {
        let end = End {
            status: *status,
            out,
            err,
        };
        run_ends(alloc, front, "1\n1\n0\n", front, end)?;
    }
    Ok(())
}

/// The first lines of a design are a text of their own, which may run, or be refused for what it lacks.
#[test]
fn a_design_that_ends_after_any_line_has_its_end(rt: HostRuntime) -> Result<(), Fail> {
    const UNDRIVEN: &str = "design 19: undriven q\n";
    const NO_LATCH: &str = "trace 1 0 0\n0 - -\n1 - -\n2 - -\nend 3 -\n";
    const TABLE: &[(&str, u8, &str, &str)] = &[
        ("", 1, "", "design 2: line 0: no model\n"),
        (
            ".model toggle\n",
            5,
            "",
            "stimulus 3: line 1: found 1 bits, wanted 0\n",
        ),
        (".model toggle\n.inputs en\n", 0, NO_LATCH, ""),
        (".model toggle\n.inputs en\n.outputs q\n", 1, "", UNDRIVEN),
        (
            ".model toggle\n.inputs en\n.outputs q\n.names en q d\n",
            1,
            "",
            UNDRIVEN,
        ),
        (
            ".model toggle\n.inputs en\n.outputs q\n.names en q d\n10 1\n",
            1,
            "",
            UNDRIVEN,
        ),
        (
            ".model toggle\n.inputs en\n.outputs q\n.names en q d\n10 1\n01 1\n",
            1,
            "",
            UNDRIVEN,
        ),
        (
            ".model toggle\n.inputs en\n.outputs q\n.names en q d\n10 1\n01 1\n.latch d q 0\n",
            0,
            TOGGLE_TRACE,
            "",
        ),
    ];
    fronts_end(rt.alloc(), TABLE)
}

//! Designs of several models.
use std::test::Fail;
use vw_sample_calls::{SIM, designs_run, words_end};
use vw_samples::{TOGGLE_ROWS, TOGGLE_TRACE, TWO_INVERTERS};

/// Models three levels deep, whose nets have equal names. The root binds b to the second half's a.
pub const HALVES: &str =
    ".model top\n.inputs a b\n.outputs y z\n.subckt half a=a b=b y=t\n.latch t q 1\n.subckt half a=b b=q y=u\n.names u y\n0 1\n.names q z\n1 1\n.end\n.model store\n.inputs d\n.outputs q\n.names d t\n0 1\n.latch t q 0\n.end\n.model half\n.inputs a b\n.outputs y\n.names a b t\n11 1\n.subckt store d=t q=q\n.names t q y\n10 1\n01 1\n.end\n";

/// The latches, in preorder, are that of the first half's store, that of the root, and that of the second half's store.
#[test]
fn equal_names_at_three_levels_are_different_nets(rt: HostRuntime) -> Result<(), Fail> {
    const TABLE: &[(&str, &str, &str)] = &[(
        HALVES,
        "11\n10\n11\n01\n",
        "trace 1 2 3\n0 01 010\n1 11 010\n2 00 101\n3 00 001\nend 4 101\n",
    )];
    designs_run(rt.alloc(), TABLE)
}

#[test]
fn placed_models_run(rt: HostRuntime) -> Result<(), Fail> {
    const TABLE: &[(&str, &str, &str)] = &[
        // a model that stands later, placed twice
        (
            TWO_INVERTERS,
            "00\n01\n10\n11\n",
            "trace 1 1 0\n0 1 -\n1 0 -\n2 0 -\n3 0 -\nend 4 -\n",
        ),
        // bindings in another order than the ports, and formals with the names of other nets
        (
            ".model top\n.inputs a b\n.outputs x y\n.subckt n b=a y=x a=b\n.subckt n y=y a=a b=b\n.model n\n.inputs a b\n.outputs y\n.names a b y\n10 1\n",
            "00\n01\n10\n11\n",
            "trace 1 2 0\n0 00 -\n1 10 -\n2 01 -\n3 00 -\nend 4 -\n",
        ),
        // an output that is bound to one deeper, and that to a constant
        (
            ".model m\n.inputs a\n.outputs y a z\n.subckt w o=y\n.subckt w z=z\n.model w\n.outputs o z\n.subckt v o=o p=z\n.model v\n.outputs p o\n.names o\n1\n.names p\n",
            "0\n1\n",
            "trace 1 3 0\n0 100 -\n1 110 -\nend 2 -\n",
        ),
        // what the first placed model drives the second one reads, and the other way round through a latch
        (
            ".model m\n.inputs a\n.outputs p q\n.subckt k i=q o=p\n.subckt n i=p q=q\n.model n\n.inputs i\n.outputs q\n.latch i q 0\n.model k\n.inputs i\n.outputs o\n.names i o\n0 1\n",
            "1\n1\n1\n",
            "trace 1 2 1\n0 10 0\n1 01 1\n2 10 0\nend 3 1\n",
        ),
        // one input for two formals, one of which isn't read
        (
            ".model m\n.inputs a\n.outputs y\n.subckt n i=a j=a o=y\n.model n\n.inputs i j\n.outputs o\n.names j o\n0 1\n",
            "0\n1\n",
            "trace 1 1 0\n0 1 -\n1 0 -\nend 2 -\n",
        ),
    ];
    designs_run(rt.alloc(), TABLE)
}

/// A text with tables of constants and a latch of five words. Its clock is no column.
#[test]
fn a_clocked_toggle_runs(rt: HostRuntime) -> Result<(), Fail> {
    const TEXTS: &[(&str, &str)] = &[
        (
            "d",
            "# constants and a clock\n\n.model top\n.inputs clk en\n.outputs q\n.names $false\n.names $true\n1\n.names $undef\n.names en q d\n10 1\n01 1\n.latch d q re clk 2\n.end\n",
        ),
        ("s", TOGGLE_ROWS),
    ];
    const TABLE: &[(&[&str], u8, &str, &str)] = &[
        (SIM, 0, TOGGLE_TRACE, ""),
        (&["sim", "d", "s", "unknown=0"], 0, TOGGLE_TRACE, ""),
        (
            &["sim", "d", "s", "unknown=1"],
            0,
            "trace 1 1 1\n0 1 1\n1 0 0\n2 1 1\nend 3 1\n",
            "",
        ),
    ];
    words_end(rt.alloc(), TEXTS, TABLE)
}

/// The setting is for latches that are free, in each instance alike.
#[test]
fn only_free_latches_start_at_the_setting(rt: HostRuntime) -> Result<(), Fail> {
    const TEXTS: &[(&str, &str)] = &[
        (
            "d",
            ".model m\n.inputs a\n.outputs a\n.subckt n i=a\n.latch a r 1\n.subckt n i=a\n.model n\n.inputs i\n.latch i p 0\n.latch i q\n.latch i r 1\n.latch i s 2\n",
        ),
        ("s", "0\n"),
    ];
    const TABLE: &[(&[&str], u8, &str, &str)] = &[
        (
            &["sim", "d", "s", "unknown=0"],
            0,
            "trace 1 1 9\n0 0 001010010\nend 1 000000000\n",
            "",
        ),
        (
            &["sim", "d", "s", "unknown=1"],
            0,
            "trace 1 1 9\n0 0 011110111\nend 1 000000000\n",
            "",
        ),
    ];
    words_end(rt.alloc(), TEXTS, TABLE)
}

#[test]
fn constants_have_their_value_at_each_clock(rt: HostRuntime) -> Result<(), Fail> {
    const TABLE: &[(&str, &str, &str)] = &[
        (
            ".model m\n.inputs a\n.outputs k\n.names k\n",
            "0\n1\n",
            "trace 1 1 0\n0 0 -\n1 0 -\nend 2 -\n",
        ),
        (
            ".model m\n.inputs a\n.outputs k\n.names k\n1\n",
            "0\n1\n",
            "trace 1 1 0\n0 1 -\n1 1 -\nend 2 -\n",
        ),
        (
            ".model m\n.inputs a\n.outputs k\n.names k\n0\n",
            "0\n1\n",
            "trace 1 1 0\n0 0 -\n1 0 -\nend 2 -\n",
        ),
    ];
    designs_run(rt.alloc(), TABLE)
}

/// A design that is refused ends the call before the stimulus is read.
#[test]
fn a_refused_design_hides_a_missing_stimulus(rt: HostRuntime) -> Result<(), Fail> {
    const WORDS: &[&str] = &["sim", "d", "missing"];
    const LOOP: &[(&str, &str)] = &[("d", ".model m\n.outputs y\n.names y y\n1 1\n"), ("s", "")];
    const UNDRIVEN: &[(&str, &str)] = &[("d", ".model m\n.outputs y\n"), ("s", "")];
    const SOUND: &[(&str, &str)] = &[("d", ".model m\n"), ("s", "")];
    const LOOP_TOLD: &[(&[&str], u8, &str, &str)] = &[(WORDS, 1, "", "design 25: loop y\n")];
    const UNDRIVEN_TOLD: &[(&[&str], u8, &str, &str)] = &[(
        WORDS,
        1,
        "",
        "design 19: undriven y\n",
    )];
    const MISSING_TOLD: &[(&[&str], u8, &str, &str)] = &[(WORDS, 7, "", "read fault: stimulus\n")];
    words_end(rt.alloc(), LOOP, LOOP_TOLD)?;
    words_end(rt.alloc(), UNDRIVEN, UNDRIVEN_TOLD)?;
    words_end(rt.alloc(), SOUND, MISSING_TOLD)
}

//! Probes: which nets they find, where their bits stand, and what comes where one finds no net.
use std::alloc::{AllocError, Global};
use std::test::Fail;
use vw_sample_calls::{
    Call, End, Fault, MOST, SIM, carried_out, is_status, words_end, words_end_so,
};
use vw_samples::{TOGGLE, TOGGLE_TEXTS, TWO_INVERTERS};

#[test]
fn watched_nets_stand_behind_the_outputs(rt: HostRuntime) -> Result<(), Fail> {
    const TABLE: &[(&[&str], u8, &str, &str)] = &[
        (
            &["sim", "d", "s", "probe=d"],
            0,
            "trace 2 1 1 1\n0 01 0\n1 10 1\n2 00 0\nend 3 0\n",
            "",
        ),
        // an input, which is a column
        (
            &["sim", "d", "s", "probe=en"],
            0,
            "trace 2 1 1 1\n0 01 0\n1 11 1\n2 00 0\nend 3 0\n",
            "",
        ),
        // a latch, before its step
        (
            &["sim", "d", "s", "probe=q"],
            0,
            "trace 2 1 1 1\n0 00 0\n1 11 1\n2 00 0\nend 3 0\n",
            "",
        ),
        // in their order, around another setting; the same net twice
        (
            &[
                "sim",
                "d",
                "s",
                "probe=en",
                "unknown=1",
                "probe=d",
                "probe=en",
            ],
            0,
            "trace 2 1 3 1\n0 0111 0\n1 1101 1\n2 0000 0\nend 3 0\n",
            "",
        ),
    ];
    words_end(rt.alloc(), TOGGLE_TEXTS, TABLE)
}

#[test]
fn a_probe_finds_a_net_inside_an_instance(rt: HostRuntime) -> Result<(), Fail> {
    const TEXTS: &[(&str, &str)] = &[("d", TWO_INVERTERS), ("s", "00\n01\n10\n11\n")];
    const TABLE: &[(&[&str], u8, &str, &str)] = &[
        (
            &["sim", "d", "s", "probe=2/t"],
            0,
            "trace 2 1 1 0\n0 11 -\n1 00 -\n2 01 -\n3 00 -\nend 4 -\n",
            "",
        ),
        // a port of a placed model has the driver of what is bound to it
        (
            &["sim", "d", "s", "probe=2/i", "probe=na"],
            0,
            "trace 2 1 2 0\n0 101 -\n1 011 -\n2 000 -\n3 010 -\nend 4 -\n",
            "",
        ),
        (
            &["sim", "d", "s", "probe=3/t"],
            1,
            "",
            "design 26: no net 3/t\n",
        ),
        (
            &["sim", "d", "s", "probe=0/t"],
            1,
            "",
            "design 26: no net 0/t\n",
        ),
        (
            &["sim", "d", "s", "probe=01/t"],
            1,
            "",
            "design 26: no net 01/t\n",
        ),
        (
            &["sim", "d", "s", "probe=1/1/t"],
            1,
            "",
            "design 26: no net 1/1/t\n",
        ),
        (
            &["sim", "d", "s", "probe=/t"],
            1,
            "",
            "design 26: no net /t\n",
        ),
        (
            &["sim", "d", "s", "probe=1/"],
            1,
            "",
            "design 26: no net 1/\n",
        ),
        (
            &["sim", "d", "s", "probe=4294967297/t"],
            1,
            "",
            "design 26: no net 4294967297/t\n",
        ),
        (
            &["sim", "d", "s", "probe=18446744073709551617/t"],
            1,
            "",
            "design 26: no net 18446744073709551617/t\n",
        ),
    ];
    words_end(rt.alloc(), TEXTS, TABLE)
}

/// A net of the root with the name `1/t`, which is the turned input, and a net `t` of its instance, which is the input.
const TWO_OF_ONE_NAME: &str =
    ".model top\n.inputs a\n.outputs y\n.names a 1/t\n0 1\n.subckt m i=a o=y\n.end\n.model m\n.inputs i\n.outputs o\n.names i t\n1 1\n.names t o\n1 1\n.end\n";

/// The net of the root with this name has no driver, and is bound to an input that isn't read.
const LONGER_PATH: &str =
    ".model top\n.inputs a\n.outputs y\n.subckt m i=a n=1/t o=y\n.end\n.model m\n.inputs i n\n.outputs o\n.names i t\n1 1\n.names t o\n1 1\n.end\n";

/// The net of the root with this name is a clock.
const LONGER_THAN_A_CLOCK: &str =
    ".model top\n.inputs a\n.clock 1/t\n.outputs y\n.subckt m i=a o=y\n.end\n.model m\n.inputs i\n.outputs o\n.names i t\n1 1\n.names t o\n1 1\n.end\n";

/// How `sim` ends with the probe `1/t` on a design, over a one and a zero.
fn probe_ends(alloc: Global, design: &str, trace: &str) -> Result<(), Fail> {
    let texts = [("d", design), ("s", "1\n0\n")];
    let end = End::done(trace);
    words_end_so(alloc, &["sim", "d", "s", "probe=1/t"], &texts, end)
}

#[test]
fn a_probe_takes_the_shortest_path_to_a_net_with_a_bit(rt: HostRuntime) -> Result<(), Fail> {
    const INNER: &str = "trace 2 1 1 0\n0 11 -\n1 00 -\nend 2 -\n";
    const OUTER: &str = "trace 2 1 1 0\n0 10 -\n1 01 -\nend 2 -\n";
    let alloc = rt.alloc();
    probe_ends(alloc, TWO_OF_ONE_NAME, OUTER)?;
    probe_ends(alloc, LONGER_PATH, INNER)?;
    probe_ends(alloc, LONGER_THAN_A_CLOCK, INNER)
}

/// A latch with a control, and an instance whose input `u` has no driver and isn't read.
const CLOCKED: &str =
    ".model top\n.inputs clk a\n.outputs q\n.latch a q re clk 0\n.subckt m i=u\n.end\n.model m\n.inputs i\n.end\n";

#[test]
fn clocks_and_nets_without_a_driver_are_not_found(rt: HostRuntime) -> Result<(), Fail> {
    const TEXTS: &[(&str, &str)] = &[("d", CLOCKED), ("s", "1\n0\n")];
    const TABLE: &[(&[&str], u8, &str, &str)] = &[
        (
            &["sim", "d", "s"],
            0,
            "trace 1 1 1\n0 0 0\n1 1 1\nend 2 0\n",
            "",
        ),
        (
            &["sim", "d", "s", "probe=clk"],
            1,
            "",
            "design 26: no net clk\n",
        ),
        (
            &["sim", "d", "s", "probe=u"],
            1,
            "",
            "design 26: no net u\n",
        ),
        (
            &["sim", "d", "s", "probe=1/i"],
            1,
            "",
            "design 26: no net 1/i\n",
        ),
        (
            &["sim", "d", "s", "probe=x"],
            1,
            "",
            "design 26: no net x\n",
        ),
        // the first one is named
        (
            &["sim", "d", "s", "probe=a", "probe=y", "probe=x"],
            1,
            "",
            "design 26: no net y\n",
        ),
        // an absent stimulus is no reason to read on
        (
            &["sim", "d", "t", "probe=x"],
            1,
            "",
            "design 26: no net x\n",
        ),
    ];
    words_end(rt.alloc(), TEXTS, TABLE)
}

#[test]
fn a_probe_without_a_net_comes_after_faults_and_before_a_loop(rt: HostRuntime) -> Result<(), Fail> {
    const LOOP: &str = ".model m\n.outputs a\n.names a b\n1 1\n.names b a\n1 1\n.end\n";
    const UNDRIVEN: &str = ".model m\n.outputs a\n.end\n";
    const ENDS: &[(&str, &str, &str)] = &[
        (LOOP, "probe=x", "design 26: no net x\n"),
        (LOOP, "probe=b", "design 25: loop b a\n"),
        (UNDRIVEN, "probe=x", "design 19: undriven a\n"),
    ];
    for (design, probe, err) in ENDS {
        let end = End::refused(1, err);
        words_end_so(rt.alloc(), &["sim", "d", "s", probe], &[("d", design)], end)?;
    }
    Ok(())
}

#[test]
fn a_watched_net_is_sent_to_the_host(rt: HostRuntime) -> Result<(), Fail> {
    const TABLE: &[(&[&str], u8, &str, &str)] = &[
        // the plan has no wire for it
        (
            &["run", "d", "b", "s", "plan=p", "probe=d", "workers=1"],
            4,
            "",
            "plan 7: no wire of net 1 to node 0\n",
        ),
        (
            &["check", "d", "b", "p", "probe=d"],
            4,
            "",
            "plan 7: no wire of net 1 to node 0\n",
        ),
        // the latch is an output, so that its wire is there
        (&["check", "d", "b", "p", "probe=q"], 0, "sound 4 4 2\n", ""),
        (
            &["run", "d", "b", "s", "plan=p", "probe=q", "workers=1"],
            0,
            "trace 2 1 1 1\n0 00 0\n1 11 1\n2 00 0\nend 3 0\n",
            "",
        ),
        // a plan of its own has it
        (
            &["run", "d", "b", "s", "workers=1", "probe=d"],
            0,
            "trace 2 1 1 1\n0 01 0\n1 10 1\n2 00 0\nend 3 0\n",
            "",
        ),
        (
            &["plan", "d", "b", "probe=x"],
            1,
            "",
            "design 26: no net x\n",
        ),
    ];
    words_end(rt.alloc(), TOGGLE_TEXTS, TABLE)
}

#[test]
fn words_of_probes_are_checked(rt: HostRuntime) -> Result<(), Fail> {
    const TABLE: &[(&[&str], u8, &str, &str)] = &[
        (&["sim", "d", "s", "probe="], 2, "", "usage: word 4\n"),
        (&["sim", "d", "s", "probe"], 2, "", "usage: word 4\n"),
        (
            &["sim", "d", "s", "probe=q", "probe="],
            2,
            "",
            "usage: word 5\n",
        ),
        (&["demo", "5", "probe=q"], 2, "", "usage: word 3\n"),
    ];
    words_end(rt.alloc(), TOGGLE_TEXTS, TABLE)
}

/// The words of a simulation whose waveform is written.
const WAVE: &[&str] = &["wave", "d", "s"];

/// These three words with so many probes of the output, the last one of which is the word 3 more than this number.
fn probed(
    alloc: Global,
    first: &[&'static str],
    count: usize,
) -> Result<Vec<&'static str>, AllocError> {
    let mut words = first.to_vec(alloc)?;
    for _ in 0..count {
        words.push("probe=q")?;
    }
    Ok(words)
}

#[test]
fn there_may_be_64_probes(rt: HostRuntime) -> Result<(), Fail> {
    let alloc = rt.alloc();
    let too_many = End::refused(2, "usage: word 68\n");
    words_end_so(alloc, &probed(alloc, SIM, 65)?, TOGGLE_TEXTS, too_many)?;
    words_end_so(alloc, &probed(alloc, WAVE, 65)?, TOGGLE_TEXTS, too_many)?;
    let traced = End::done(
        "trace 2 1 64 1\n0 00000000000000000000000000000000000000000000000000000000000000000 0\nend 1 0\n",
    );
    let texts = &[("d", TOGGLE), ("s", "0\n")];
    words_end_so(alloc, &probed(alloc, SIM, 64)?, texts, traced)?;
    are_many_signals(alloc, &probed(alloc, WAVE, 64)?, texts)
}

/// Fails unless the wave of these words is written.
fn are_many_signals(alloc: Global, words: &[&str], texts: &[(&str, &str)]) -> Result<(), Fail> {
    let call = Call {
        words,
        texts,
        most: MOST,
        fault: Fault::None,
    };
    let ran = carried_out(alloc, &call)?;
    is_status(ran.status, 0, "a wave with 64 probes")
}

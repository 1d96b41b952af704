//! Texts of states, and what follows them.
use super::*;

#[test]
fn the_state_after_a_stimulus_is_saved(rt: HostRuntime) -> Result<(), Fail> {
    const SAVE: [&[&str]; 5] = [
        &["save", "d", "b", "s", "workers=1"],
        &["save", "d", "b", "s", "workers=2"],
        &["save", "d", "b", "s", "workers=3"],
        &["save", "d", "b", "s", "plan=p", "workers=1"],
        &["save", "d", "b", "s", "plan=p", "workers=3"],
    ];
    let wanted = End::done(STATE);
    all_end_on(&rt, rt.alloc(), &SAVE, TEXTS, Fault::None, wanted)
}

#[test]
fn a_run_goes_on_from_a_state(rt: HostRuntime) -> Result<(), Fail> {
    let wanted = End::done(LATER_TRACE);
    all_end_on(&rt, rt.alloc(), &RESUME, TEXTS, Fault::None, wanted)
}

/// The bits of latches are those of the state, whatever free latches start at.
#[test]
fn the_value_of_free_latches_has_no_effect_on_a_resumption(rt: HostRuntime) -> Result<(), Fail> {
    const FREE: &str = ".model m\n.outputs q\n.latch q q 2\n.end\n";
    const FREE_TEXTS: &[(&str, &str)] = &[
        ("d", FREE),
        ("b", TRIANGLE),
        ("s", "hold 2\n"),
        ("t", "state 1 9 1 0\n"),
    ];
    const WORDS: [&[&str]; 2] = [
        &["resume", "d", "b", "t", "s", "unknown=1"],
        &["resume", "d", "b", "t", "s", "unknown=0"],
    ];
    const SAVE: [&[&str]; 1] = [&["save", "d", "b", "s", "unknown=1"]];
    let alloc = rt.alloc();
    let trace = End::done("trace 1 1 1\n9 0 0\n10 0 0\nend 11 0\n");
    let state = End::done("state 1 2 1 1\n");
    all_end_on(&rt, alloc, &WORDS, FREE_TEXTS, Fault::None, trace)?;
    all_end_on(&rt, alloc, &SAVE, FREE_TEXTS, Fault::None, state)
}

#[test]
fn a_state_may_have_no_latches_and_a_stimulus_no_rows(rt: HostRuntime) -> Result<(), Fail> {
    const WIRE: &str = ".model m\n.inputs a\n.outputs y\n.names a y\n0 1\n.end\n";
    const WIRE_TEXTS: &[(&str, &str)] = &[
        ("d", WIRE),
        ("b", TRIANGLE),
        ("s", ""),
        ("t", "state 1 4294967294 0 -\n"),
        ("r", "0\n"),
    ];
    const SAVE: [&[&str]; 2] = [
        &["save", "d", "b", "s"],
        &["save", "d", "b", "s", "workers=1"],
    ];
    const RESUME: [&[&str]; 2] = [
        &["resume", "d", "b", "t", "r"],
        &["resume", "d", "b", "t", "r", "workers=1"],
    ];
    const NO_ROWS: [&[&str]; 1] = [&["resume", "d", "b", "t", "s"]];
    let alloc = rt.alloc();
    let state = End::done("state 1 0 0 -\n");
    let trace = End::done("trace 1 1 0\n4294967294 1 -\nend 4294967295 -\n");
    let nothing = End::done("trace 1 1 0\nend 4294967294 -\n");
    all_end_on(&rt, alloc, &SAVE, WIRE_TEXTS, Fault::None, state)?;
    all_end_on(&rt, alloc, &RESUME, WIRE_TEXTS, Fault::None, trace)?;
    all_end_on(&rt, alloc, &NO_ROWS, WIRE_TEXTS, Fault::None, nothing)
}

#[test]
fn words_are_numbered_from_the_clock_of_the_state(rt: HostRuntime) -> Result<(), Fail> {
    let alloc = rt.alloc();
    let call = Call {
        words: &["resume", "d", "b", "t", "r", "plan=p", "workers=2"],
        texts: TEXTS,
        most: MOST,
        fault: Fault::None,
    };
    let mut links = Links::new(rt, true);
    let ended = carried_out_on(&rt, alloc, &call, &OpenGate::new(), &mut links)?;
    has_ended(&ended, "words", End::done(LATER_TRACE))?;
    let first = words_carried(alloc, &links, 0)?;
    let fourth = words_carried(alloc, &links, 3)?;
    let fifth = words_carried(alloc, &links, 4)?;
    are_found(first.as_bytes(), b"1 0 0 1\n2 0 0 0\n", "host to chip 1")?;
    are_found(fourth.as_bytes(), b"1 1 0 0\n2 1 0 0\n", "chip 1 to chip 2")?;
    are_found(fifth.as_bytes(), b"1 2 0 1\n2 2 0 0\n", "chip 2 to host")
}

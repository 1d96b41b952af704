//! Traces by any number of workers.
use super::*;

/// Asserts how a call with these words ends over some texts, and what links have carried then.
fn call_ends<R: Threads + Wait + Copy + Send + Sync>(
    rt: &R,
    alloc: Global,
    words: &[&str],
    texts: &[(&str, &str)],
    wanted: End,
    carried: &[&str],
) -> Result<(), Fail> {
    let call = Call {
        words,
        texts,
        most: MOST,
        fault: Fault::None,
    };
    let on = words.last().copied().unwrap_or("no words");
    let mut links = Links::new(*rt, true);
    let ended = carried_out_on(rt, alloc, &call, &OpenGate::new(), &mut links)?;
    has_ended(&ended, on, wanted)?;
    have_carried(alloc, &links, carried, on)
}

/// Asserts this of calls with each of these lists of words.
fn calls_end<R: Threads + Wait + Copy + Send + Sync>(
    rt: &R,
    alloc: Global,
    table: &[&[&str]],
    texts: &[(&str, &str)],
    wanted: End,
    carried: &[&str],
) -> Result<(), Fail> {
    for words in table {
        call_ends(rt, alloc, words, texts, wanted, carried)?;
    }
    Ok(())
}

#[test]
fn a_given_plan_says_which_words_links_carry(rt: HostRuntime) -> Result<(), Fail> {
    let wanted = End::done(TOGGLE_TRACE);
    calls_end(
        &rt,
        rt.alloc(),
        &GIVEN_PLAN,
        TOGGLE_TEXTS,
        wanted,
        &TOGGLE_WORDS,
    )
}

#[test]
fn any_number_of_workers_write_the_trace(rt: HostRuntime) -> Result<(), Fail> {
    let wanted = End::done(TOGGLE_TRACE);
    calls_end(&rt, rt.alloc(), &OWN_PLAN, TOGGLE_TEXTS, wanted, &[])
}

#[test]
fn one_worker_and_the_simulator_use_no_link(rt: HostRuntime) -> Result<(), Fail> {
    const ALONE: [&[&str]; 3] = [
        &["run", "d", "b", "s", "workers=1"],
        &["run", "d", "b", "s", "plan=p", "workers=1"],
        &["sim", "d", "s"],
    ];
    let wanted = End::done(TOGGLE_TRACE);
    calls_end(&rt, rt.alloc(), &ALONE, TOGGLE_TEXTS, wanted, &NO_WORDS)
}

/// The latch's value crosses two links in the clock that it belongs to.
#[test]
fn a_latch_is_seen_at_its_own_clock(rt: HostRuntime) -> Result<(), Fail> {
    const WORDS: &str = "0 1 0 0\n1 1 0 1\n2 1 0 0\n3 1 0 1\n";
    let wanted = End::done(FLIP_TRACE);
    let carried = ["", WORDS, "", WORDS];
    calls_end(&rt, rt.alloc(), &GIVEN_PLAN, FLIP_TEXTS, wanted, &carried)
}

#[test]
fn a_latch_is_seen_at_its_own_clock_by_a_plan_of_their_own(rt: HostRuntime) -> Result<(), Fail> {
    let wanted = End::done(FLIP_TRACE);
    calls_end(&rt, rt.alloc(), &OWN_PLAN, FLIP_TEXTS, wanted, &[])
}

/// The latch at the end of a chain on which a bit takes three microcycles over one link.
const FAR_TEXTS: &[(&str, &str)] = &[
    ("d", FLIP),
    ("b", FAR_CHAIN),
    ("p", FAR_PLAN),
    ("s", "hold 4\n"),
];

#[test]
fn a_latch_is_seen_at_its_own_clock_over_links_with_delays(rt: HostRuntime) -> Result<(), Fail> {
    const WORDS: &str = "0 1 0 0\n1 1 0 1\n2 1 0 0\n3 1 0 1\n";
    const ALONE: [&[&str]; 1] = [&["run", "d", "b", "s", "plan=p", "workers=1"]];
    let wanted = End::done(FLIP_TRACE);
    let carried = ["", WORDS, "", WORDS];
    calls_end(&rt, rt.alloc(), &GIVEN_PLAN, FAR_TEXTS, wanted, &carried)?;
    calls_end(&rt, rt.alloc(), &ALONE, FAR_TEXTS, wanted, &NO_WORDS)
}

/// Chains of four and of five gates behind an input, on two chips with two cells each.
const FOUR_TEXTS: &[(&str, &str)] = &[
    ("d", FOUR_GATES),
    ("b", FOUR_CELLS),
    ("p", ""),
    ("s", "1\n0\n"),
];

const FIVE_TEXTS: &[(&str, &str)] = &[
    ("d", FIVE_GATES),
    ("b", FOUR_CELLS),
    ("p", ""),
    ("s", "1\n0\n"),
];

#[test]
fn as_many_cells_run_as_there_is_room_for(rt: HostRuntime) -> Result<(), Fail> {
    let wanted = End::done("trace 1 1 0\n0 1 -\n1 0 -\nend 2 -\n");
    calls_end(&rt, rt.alloc(), &OWN_PLAN, FOUR_TEXTS, wanted, &[])
}

#[test]
fn one_cell_more_is_refused_and_no_link_is_used(rt: HostRuntime) -> Result<(), Fail> {
    let wanted = End::refused(6, "fit: 5 cells, room for 4\n");
    calls_end(&rt, rt.alloc(), &OWN_PLAN, FIVE_TEXTS, wanted, &NO_WORDS)
}

/// What link 3 carries while the toggle turns for 257 clocks: its table's value, which is 1 at each even clock.
fn turning(alloc: Global) -> Result<String, AllocError> {
    let mut words = String::new(alloc);
    for clock in 0..257u32 {
        let bit = clock & 1 ^ 1;
        let word = format!(in alloc; "{clock} 1 0 {bit}\n")?;
        words.push_str(word.as_str())?;
    }
    Ok(words)
}

/// 257 clocks are a batch and a clock, so the links are laid twice.
#[test]
fn links_are_laid_anew_for_each_batch(rt: HostRuntime) -> Result<(), Fail> {
    const TEXTS: &[(&str, &str)] = &[
        ("d", TOGGLE),
        ("b", TRIANGLE),
        ("p", TOGGLE_PLAN),
        ("s", "1\nhold 256\n"),
    ];
    let call = Call {
        words: &["run", "d", "b", "s", "plan=p", "workers=2"],
        texts: TEXTS,
        most: MOST,
        fault: Fault::None,
    };
    let mut links = Links::new(rt, true);
    let ended = carried_out_on(&rt, rt.alloc(), &call, &OpenGate::new(), &mut links)?;
    assert!(rt;
        ended
            .out
            .bytes()
            .ends_with(b"255 1 1\n256 0 0\nend 257 1\n")
    );
    let found = words_carried(rt.alloc(), &links, 3)?;
    are_found(
        found.as_bytes(),
        turning(rt.alloc())?.as_bytes(),
        "257 words",
    )
}

#[test]
fn a_demo_has_the_same_summary_whatever_the_workers(rt: HostRuntime) -> Result<(), Fail> {
    const DEMOS: [&[&str]; 4] = [
        &["demo", "1000", "workers=1"],
        &["demo", "1000"],
        &["demo", "1000", "workers=4"],
        &["demo", "1000", "workers=17"],
    ];
    let wanted = End::done("demo 1000 300 44563 1543114685\n");
    calls_end(&rt, rt.alloc(), &DEMOS, TOGGLE_TEXTS, wanted, &[])
}

use std::alloc::{AllocError, Global};
use std::marker::Sync;
use std::sync::Wait;
use std::test::Fail;
use std::thread::Threads;
use vw_link::Links;
use vw_outside::OpenGate;
use vw_sample_calls::{
    Call, End, Fault, MOST, SEVERAL, SIM, all_end_on, are_found, carried_out_on, demonstrated,
    ends_on, has_ended, line_of_read, words_carried, words_end, written_on,
};
use vw_samples::{TOGGLE, TOGGLE_PLAN, TRIANGLE, spelled};

mod cuts;
mod kept;
mod replays;
mod rows;
mod stops;
mod triggers;

/// The state of the toggle after one clock with a one, and what it does from there on over `LATER`.
const STATE: &str = "state 1 1 1 1\n";

const LATER: &str = "1\n0\n";

const LATER_TRACE: &str = "trace 1 1 1\n1 1 1\n2 0 0\nend 3 0\n";

/// The toggle on the triangle, with its plan, its first row, its state then, and its later rows.
const TEXTS: &[(&str, &str)] = &[
    ("d", TOGGLE),
    ("b", TRIANGLE),
    ("p", TOGGLE_PLAN),
    ("s", "1\n"),
    ("t", STATE),
    ("r", LATER),
];

/// Words that go on from the state t over the rows r, by plans of their own and by the plan p.
const RESUME: [&[&str]; 6] = [
    &["resume", "d", "b", "t", "r", "workers=1"],
    &["resume", "d", "b", "t", "r", "workers=2"],
    &["resume", "d", "b", "t", "r", "workers=3"],
    &["resume", "d", "b", "t", "r", "plan=p", "workers=1"],
    &["resume", "d", "b", "t", "r", "plan=p", "workers=2"],
    &["resume", "d", "b", "t", "r", "plan=p", "workers=3"],
];

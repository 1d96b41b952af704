use std::alloc::{AllocError, Global};
use std::marker::Sync;
use std::process::Abort;
use std::sync::Wait;
use std::test::Fail;
use std::thread::Threads;
use vw_link::Links;
use vw_outside::{BurstGate, OpenGate};
use vw_sample_calls::{
    Call, End, Fault, MOST, Ran, are_found, carried_out_on, has_ended, is_status, line_of_read,
    words_carried,
};
use vw_samples::{
    AND, FAR_CHAIN, FAR_PLAN, FIVE_GATES, FLIP, FLIP_TEXTS, FLIP_TRACE, FOUR_CELLS, FOUR_GATES,
    Piece, TOGGLE, TOGGLE_PLAN, TOGGLE_ROWS, TOGGLE_TEXTS, TOGGLE_TRACE, TRIANGLE, spelled,
};

mod files;
mod fronts;
mod gates;
mod laid;
mod traces;

/// What each link of the triangle carries in these clocks, a line for each word: its clock, its net, its pin and its bit.
const TOGGLE_WORDS: [&str; 6] = [
    "0 0 0 1\n1 0 0 1\n2 0 0 0\n",
    "",
    "",
    "0 1 0 1\n1 1 0 0\n2 1 0 0\n",
    "0 2 0 0\n1 2 0 1\n2 2 0 0\n",
    "0 2 0 0\n1 2 0 1\n2 2 0 0\n",
];

const NO_WORDS: [&str; 6] = [""; 6];

/// Runs with a plan of their own, and with the plan p.
const OWN_PLAN: [&[&str]; 4] = [
    &["run", "d", "b", "s"],
    &["run", "d", "b", "s", "workers=2"],
    &["run", "d", "b", "s", "workers=3"],
    &["run", "d", "b", "s", "workers=64"],
];

const GIVEN_PLAN: [&[&str]; 4] = [
    &["run", "d", "b", "s", "plan=p"],
    &["run", "d", "b", "s", "plan=p", "workers=2"],
    &["run", "d", "b", "s", "plan=p", "workers=3"],
    &["run", "d", "b", "s", "plan=p", "workers=64"],
];

/// Fails unless links have carried just these words.
fn have_carried<R>(alloc: Global, links: &Links<R>, words: &[&str], on: &str) -> Result<(), Fail> {
    for link in 0..64u32 {
        let Some(wanted) = words.get(link as usize) else {
            break;
        };
        let found = words_carried(alloc, links, link)?;
        are_found(found.as_bytes(), wanted.as_bytes(), on)?;
    }
    Ok(())
}

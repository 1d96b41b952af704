//! Links that are ruled queues: what their ends answer on one thread, and what they have carried.
ghost use Rattle.std.specs.Prelude.{◌≡◌, ◌<◌, IfOk, IsTrue, length};
ghost use Rattle.std.specs.Option.{is_some};
ghost use Rattle.vw_prog.specs.Scripts.{script};
ghost use Rattle.vw_link.specs.Chains.{carried_of};

use crate::ends::{Exchange, idle, round};
use crate::scripts::script_of;
use std::alloc::{AllocError, Global};
use std::sync::Wait;
use std::test::Fail;
use vw_link::Links;
use vw_prog::{Job, Word};
use vw_samples::{PLANNED_TOGGLE, job_of};

/// All words that a link has carried, of no more than a thousand.
fn all_carried<R>(alloc: Global, links: &Links<R>, link: u32) -> Result<Vec<Word>, AllocError> {
    let mut words = Vec::new(alloc);
    for number in 0..1000 {
        match links.carried(link, number) {
            Some(word) => words.push(word)?,
            None => break,
        }
    }
    Ok(words)
}

/// The script of link 3, from chip 1 to chip 2, over 65 clocks in which the input is 0, so that the latch stays 0; so many times.
fn expected(alloc: Global, times: usize) -> Result<Vec<Word>, AllocError> {
    let mut words = Vec::new(alloc);
    for _ in 0..times {
        for clock in 0..65 {
            words.push(Word::make(clock, 1, 0, false))?;
        }
    }
    Ok(words)
}

/// What the ends of a link answer, what it has carried then, what after a lay in which nothing is taken, what after a second
/// exchange, and what the link before it has carried.
struct Outcome {
    exchange: Exchange,
    once: Vec<Word>,
    still: Vec<Word>,
    twice: Vec<Word>,
    other: Vec<Word>,
}

impl Drop for Outcome {
    fn drop(self) {
        let Outcome {
            exchange: _,
            once: _,
            still: _,
            twice: _,
            other: _,
        } = self;
    }
}

/// Lays link 3 three times: for an exchange, for nothing, and for another exchange.
fn three_lays<R: Wait + Copy + Send>(
    rt: R,
    alloc: Global,
    job: &Job,
    words: &[Word],
) -> Result<Outcome, AllocError>
    requires link { 3 < length job.now.checked.board.links }
    requires script { words.now ≡ script job.now 3 }
    requires some { 0 < length words.now }
{
    let mut links = Links::new(rt, true);
    let exchange = round(&mut links, alloc, job, 3, words)?;
    let once = all_carried(alloc, &links, 3)?;
    idle(&mut links, alloc, job, 3)?;
    let still = all_carried(alloc, &links, 3)?;
    round(&mut links, alloc, job, 3, words)?;
    Ok(Outcome {
        exchange,
        once,
        still,
        twice: all_carried(alloc, &links, 3)?,
        other: all_carried(alloc, &links, 2)?,
    })
}

/// How many words were taken before any was put, put, taken then, put in all, and taken at last; how many were carried then, after
/// the lay in which nothing was taken, and after the second exchange; and how many by the other link.
fn counts_of(outcome: &Outcome) -> [usize; 9] {
    [
        outcome.exchange.before.len(),
        outcome.exchange.put,
        outcome.exchange.first.len(),
        outcome.exchange.put_then,
        outcome.exchange.rest.len(),
        outcome.once.len(),
        outcome.still.len(),
        outcome.twice.len(),
        outcome.other.len(),
    ]
}

/// The words that were taken, and then all that were carried after each lay.
fn all_words(alloc: Global, outcome: &Outcome) -> Result<Vec<Word>, AllocError> {
    let mut words = Vec::new(alloc);
    for part in [
        &outcome.exchange.first,
        &outcome.exchange.rest,
        &outcome.once,
        &outcome.still,
        &outcome.twice,
    ] {
        words.extend_from_slice(part)?;
    }
    Ok(words)
}

/// A row in which the toggle's input is 0.
const ZERO_ROW: &[bool] = &[false];

/// The job of the test: 65 clocks of the toggle.
fn toggle_job(alloc: Global) -> Result<Job, Fail>
    ensures { IfOk result (λ job. 3 < length job.checked.board.links) }
{
    let rows = vec![in alloc; ZERO_ROW; 65]?;
    let job = job_of(alloc, &PLANNED_TOGGLE, &rows)?;
    if job.checked().board().links().len() < 4 {
        return Err("no link 3".into());
    }
    Ok(job)
}

/// What comes of link 3 in that job.
fn toggle_outcome<R: Wait + Copy + Send>(rt: R, alloc: Global) -> Result<Outcome, Fail> {
    let job = toggle_job(alloc)?;
    let words = script_of(alloc, &job, 3)?;
    if words.is_empty() {
        return Err("no words".into());
    }
    Ok(three_lays(rt, alloc, &job, &words)?)
}

/// The queue of link 3 holds 64 words.
#[test]
fn a_link_carries_its_script_once_and_in_order(rt: HostRuntime) -> Result<(), Fail> {
    let outcome = toggle_outcome(rt, rt.alloc())?;
    assert_eq!(rt; counts_of(&outcome), [0, 64, 1, 65, 64, 65, 65, 130, 0]);
    let words = all_words(rt.alloc(), &outcome)?;
    assert_eq!(rt; words, expected(rt.alloc(), 5)?);
    Ok(())
}

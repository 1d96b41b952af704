//! What the two ends of a link answer where one thread has both.
ghost use Rattle.std.specs.Prelude.{◌≡◌, ◌≤◌, ◌<◌, ◌+◌, length, IfOk, OnOk};
ghost use Rattle.std.specs.Option.{is_some};
ghost use Rattle.vw_prog.specs.Scripts.{script};
ghost use Rattle.vw_crew_tests.specs.Rounds.{HasPut, HasTaken};

use std::alloc::{AllocError, Global};
use vw_prog::{Fabric, Job, PutEnd, TakeEnd, Word};

/// Puts the words of a script from a position on, up to the first that is refused. It gives the position that it came to.
fn put_from<E: PutEnd>(end: &mut E, script: &[Word], from: usize) -> usize
    requires script { (E.seen end.old).words ≡ script.now }
    requires from { ((E.seen end.old).sent ≡ from) × (from ≤ length script.now) }
    ensures put { HasPut (E.seen end.old) (E.seen end.new) result }
    ensures within { result ≤ length script.now }
{
    let mut at = from;
    while at < script.len() {
        if !end.put(script[at]) {
            return at;
        }
        at += 1;
    }
    at
}

/// Takes so many words, or those before the first take that is refused.
fn take_up_to<E: TakeEnd>(
    alloc: Global,
    end: &mut E,
    script: &[Word],
    from: usize,
    most: usize,
) -> Result<Vec<Word>, AllocError>
    requires script { (E.seen end.old).words ≡ script.now }
    requires from { ((E.seen end.old).taken ≡ from) × (from + most ≤ length script.now) }
    ensures { IfOk result (λ words. HasTaken (E.seen end.old) (E.seen end.new) (from + length words.items) × (length words.items ≤ most)) }
{
    let mut words = Vec::new(alloc);
    while words.len() < most {
        match end.take() {
            Some(word) => words.push(word)?,
            None => break,
        }
    }
    Ok(words)
}

/// What came of puts and takes.
pub struct Exchange {
    /// The words that were taken before any was put.
    pub before: Vec<Word>,
    /// How many words were put.
    pub put: usize,
    /// The word that was taken then.
    pub first: Vec<Word>,
    /// How many words had been put then.
    pub put_then: usize,
    /// The words that were taken then.
    pub rest: Vec<Word>,
}

impl Drop for Exchange {
    fn drop(self) {
        let Exchange {
            before: _,
            put: _,
            first: _,
            put_then: _,
            rest: _,
        } = self;
    }
}

/// Takes a word; puts all words up to the first refusal; takes one; puts all up to the next refusal; and takes all others.
fn exchange_words<X: PutEnd, Y: TakeEnd>(
    alloc: Global,
    tx: &mut X,
    rx: &mut Y,
    script: &[Word],
) -> Result<Exchange, AllocError>
    requires some { 0 < length script.now }
    requires puts { ((X.seen tx.old).words ≡ script.now) × ((X.seen tx.old).sent ≡ 0) }
    requires takes { ((Y.seen rx.old).words ≡ script.now) × ((Y.seen rx.old).taken ≡ 0) }
    ensures { OnOk result (HasPut (X.seen tx.old) (X.seen tx.new) (X.seen tx.new).sent
        × HasTaken (Y.seen rx.old) (Y.seen rx.new) (Y.seen rx.new).taken) }
{
    let before = take_up_to(alloc, rx, script, 0, 1)?;
    let put = put_from(tx, script, 0);
    let taken = before.len();
    let first = take_up_to(alloc, rx, script, taken, 1.min(script.len() - taken))?;
    let put_then = put_from(tx, script, put);
    let taken = taken + first.len();
    let rest = take_up_to(alloc, rx, script, taken, script.len() - taken)?;
    Ok(Exchange {
        before,
        put,
        first,
        put_then,
        rest,
    })
}

/// Lays a link, has its ends exchange words, and lifts it.
pub fn round<F: Fabric>(
    fabric: &mut F,
    alloc: Global,
    job: &Job,
    link: u32,
    words: &[Word],
) -> Result<Exchange, AllocError>
    requires link { link < length job.now.checked.board.links }
    requires script { words.now ≡ script job.now link }
    requires some { 0 < length words.now }
    ensures { is_some (F.carried fabric.new) ≡ is_some (F.carried fabric.old) }
{
    let (mut tx, mut rx) = fabric.lay(alloc, job, link)?;
    let exchange = exchange_words(alloc, &mut tx, &mut rx, words)?;
    fabric.lift(link, tx, rx);
    Ok(exchange)
}

/// Lays a link and lifts it.
pub fn idle<F: Fabric>(
    fabric: &mut F,
    alloc: Global,
    job: &Job,
    link: u32,
) -> Result<(), AllocError>
    requires link { link < length job.now.checked.board.links }
    ensures { is_some (F.carried fabric.new) ≡ is_some (F.carried fabric.old) }
{
    let (tx, rx) = fabric.lay(alloc, job, link)?;
    fabric.lift(link, tx, rx);
    Ok(())
}

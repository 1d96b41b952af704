//! Calls on a runtime, whose workers are threads, and what their links have carried.
use crate::call::{Call, End, Fault, MOST, Ran, names_of, out_of, shelf_of, sink};
use crate::ends::{has_ended, is_status};
use std::alloc::{AllocError, Global};
use std::marker::Sync;
use std::sync::Wait;
use std::test::Fail;
use std::thread::Threads;
use vw_link::Links;
use vw_outside::{BurstGate, OpenGate};
use vw_prog::Fabric;
use vw_top::virtual_wires;

/// Carries out a call past this gate, with links of this fabric.
pub fn carried_out_on<R: Threads + Wait + Sync, G: BurstGate, F: Fabric>(
    rt: &R,
    alloc: Global,
    call: &Call,
    gate: &G,
    fabric: &mut F,
) -> Result<Ran, AllocError> {
    let mut shelf = shelf_of(alloc, call)?;
    let mut out = out_of(alloc, call)?;
    let mut err = sink(alloc, MOST, 0)?;
    let words = names_of(alloc, call.words)?;
    let status = virtual_wires(
        rt, alloc, &words, &mut shelf, fabric, gate, &mut out, &mut err,
    );
    Ok(Ran { status, out, err })
}

/// The words that a link has carried, a line for each: its clock, its net, its pin and its bit.
pub fn words_carried<R>(alloc: Global, links: &Links<R>, link: u32) -> Result<String, AllocError> {
    let mut text = String::new(alloc);
    for number in 0..100_000 {
        let Some(word) = links.carried(link, number) else {
            break;
        };
        let (clock, net, pin) = (word.clock(), word.net(), word.pin());
        let line = format!(in alloc; "{clock} {net} {pin} {}\n", word.bit() as u8)?;
        text.push_str(line.as_str())?;
    }
    Ok(text)
}

/// How a call with these words over these texts, with this fault, ends on links of its own.
fn ran<R: Threads + Wait + Copy + Send + Sync>(
    rt: &R,
    alloc: Global,
    words: &[&str],
    texts: &[(&str, &str)],
    fault: Fault,
) -> Result<Ran, AllocError> {
    let call = Call {
        words,
        texts,
        most: MOST,
        fault,
    };
    let mut links = Links::new(*rt, true);
    carried_out_on(rt, alloc, &call, &OpenGate::new(), &mut links)
}

/// Fails unless a call with these words over these texts, with this fault, ends so.
pub fn ends_on<R: Threads + Wait + Copy + Send + Sync>(
    rt: &R,
    alloc: Global,
    words: &[&str],
    texts: &[(&str, &str)],
    fault: Fault,
    wanted: End,
) -> Result<(), Fail> {
    let ended = ran(rt, alloc, words, texts, fault)?;
    has_ended(&ended, words.last().copied().unwrap_or("no words"), wanted)
}

/// Fails unless calls with each of these lists of words end so.
pub fn all_end_on<'x, R: Threads + Wait + Copy + Send + Sync>(
    rt: &R,
    alloc: Global,
    table: &'x [&'x [&'x str]],
    texts: &'x [(&'x str, &'x str)],
    fault: Fault,
    wanted: End,
) -> Result<(), Fail> {
    for words in table {
        ends_on(rt, alloc, words, texts, fault, wanted)?;
    }
    Ok(())
}

/// What a call with these words over these texts writes. It fails unless the call ends with status 0.
pub fn written_on<R: Threads + Wait + Copy + Send + Sync>(
    rt: &R,
    alloc: Global,
    words: &[&str],
    texts: &[(&str, &str)],
) -> Result<String, Fail> {
    let ended = ran(rt, alloc, words, texts, Fault::None)?;
    is_status(
        ended.status,
        0,
        words.first().copied().unwrap_or("no words"),
    )?;
    let bytes = ended.out.bytes().to_vec(alloc)?;
    Ok(String::from_utf8(bytes).ok().ok_or("no text")?)
}

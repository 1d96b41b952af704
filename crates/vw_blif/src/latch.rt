//! Latches.
ghost use Rattle.std.specs.Prelude.{◌≡◌, ◌≤◌, ◌<◌, true, false, length, IfOk, IfErr};
ghost use Rattle.vw_blif.specs.Latches.{Written, written_of, is_type, is_init, edge_of, control_of, init_of, latch_of, has_bad_type, has_bad_init};
ghost use Rattle.vw_blif.specs.Spelled.{latch, spelled_item};
ghost use Rattle.vw_blif.specs.Steps.FaultAnswers.{SaysLatch};
ghost use Rattle.vw_design.specs.Paths.{lent};

use crate::copies::{copy, is};
use crate::fault::TextFault;
use std::alloc::{AllocError, Global};
use vw_design::{Edge, Item};
use vw_net::Init;
use vw_outside::Name;

/// Whether a word, where it is written, is the type of a latch.
fn is_type(word: Option<&Name>) -> bool
    ensures { result ≡ is_type (lent word.entry) }
{
    match word {
        None => true,
        Some(word) => is(word.as_slice(), b"re") || is(word.as_slice(), b"fe"),
    }
}

/// Whether a word, where it is written, is an initial value.
fn is_init(word: Option<&Name>) -> bool
    ensures { result ≡ is_init (lent word.entry) }
{
    match word {
        None => true,
        Some(word) => {
            is(word.as_slice(), b"0")
                || is(word.as_slice(), b"1")
                || is(word.as_slice(), b"2")
                || is(word.as_slice(), b"3")
        }
    }
}

/// The edge of a type.
fn edge_of(word: Option<&Name>) -> Edge
    ensures { result ≡ edge_of (lent word.entry) }
{
    match word {
        None => Edge::Unsaid,
        Some(word) if is(word.as_slice(), b"re") => Edge::Rise,
        Some(_) => Edge::Fall,
    }
}

/// The control of a latch.
fn control_of(alloc: Global, word: Option<&Name>) -> Result<Option<Name>, AllocError>
    ensures { IfOk result (λ control. control ≡ control_of (lent word.entry)) }
{
    match word {
        None => Ok(None),
        Some(word) if is(word.as_slice(), b"NIL") => Ok(None),
        Some(word) => Ok(Some(copy(alloc, word.as_slice())?)),
    }
}

/// The initial value of a latch.
fn init_of(word: Option<&Name>) -> Init
    ensures { result ≡ init_of (lent word.entry) }
{
    match word {
        None => Init::Free,
        Some(word) if is(word.as_slice(), b"0") => Init::Zero,
        Some(word) if is(word.as_slice(), b"1") => Init::One,
        Some(_) => Init::Free,
    }
}

/// The words that are written behind the input and the output of a latch.
#[derive(Clone, Copy)]
struct Written<'a> {
    type_: Option<&'a Name>,
    control: Option<&'a Name>,
    init: Option<&'a Name>,
}

/// Which word is which, by their number.
fn written_of(words: &[Name]) -> Written<'_>
    requires { length words.now ≤ 3 }
    ensures type_ { lent result.type_ ≡ (written_of words.now).type_ }
    ensures control { lent result.control ≡ (written_of words.now).control }
    ensures init { lent result.init ≡ (written_of words.now).init }
{
    match words {
        [] => Written {
            type_: None,
            control: None,
            init: None,
        },
        [init] => Written {
            type_: None,
            control: None,
            init: Some(init),
        },
        [type_, control] => Written {
            type_: Some(type_),
            control: Some(control),
            init: None,
        },
        [type_, control, init, ..] => Written {
            type_: Some(type_),
            control: Some(control),
            init: Some(init),
        },
    }
}

/// The latch with this input and output, by the words behind them.
fn latch_item(
    alloc: Global,
    line: u64,
    d: &Name,
    q: &Name,
    written: Written<'_>,
) -> Result<Item, AllocError>
    ensures { IfOk result (λ item. spelled_item item ≡ latch line d.now q.now
        (edge_of (lent written.entry.type_)) (control_of (lent written.entry.control))
        (init_of (lent written.entry.init))) }
{
    Ok(Item::Latch {
        line,
        d: copy(alloc, d.as_slice())?,
        q: copy(alloc, q.as_slice())?,
        edge: edge_of(written.type_),
        control: control_of(alloc, written.control)?,
        init: init_of(written.init),
    })
}

/// The latch of the words behind the keyword.
pub fn latch_of(alloc: Global, line: u64, words: &[Name]) -> Result<Item, TextFault>
    requires few { length words.now ≤ 5 }
    requires some { 1 < length words.now }
    ensures item { IfOk result (λ item. spelled_item item ≡ latch_of line words.now) }
    ensures fine { IfOk result
        (λ _. (has_bad_type words.now ≡ false) × (has_bad_init words.now ≡ false)) }
    ensures fault { IfErr result (SaysLatch line words.now) }
{
    let [d, q, rest @ ..] = words else {
        return Err(TextFault::BadWords(line));
    };
    let written = written_of(rest);
    if !is_type(written.type_) {
        return Err(TextFault::BadLatchType(line));
    }
    if !is_init(written.init) {
        return Err(TextFault::BadInit(line));
    }
    Ok(latch_item(alloc, line, d, q, written)?)
}

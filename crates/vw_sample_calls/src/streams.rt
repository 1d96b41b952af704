//! Runs of the toggle over several batches, and over reads and writes that fail.
use crate::call::{Call, Fault, MOST, carried_out};
use crate::ends::{are_found, is_status};
use std::alloc::Global;
use std::test::Fail;
use vw_samples::TOGGLE_TRACE;

/// How many lines a text has.
fn lines_of(text: &[u8]) -> usize {
    text.iter().filter(|byte| **byte == b'\n').count()
}

/// Fails unless the trace of the toggle over 257 clocks, which are two batches, has each clock once.
fn is_whole(trace: &[u8]) -> Result<(), Fail> {
    if lines_of(trace) != 259 {
        return Err("another number of lines".into());
    }
    if !trace.ends_with(b"\n255 1 1\n256 0 0\nend 257 1\n") {
        return Err("another end".into());
    }
    Ok(())
}

/// Fails unless a run of the toggle over two batches has each clock once.
pub fn batches_are_joined(
    alloc: Global,
    words: &[&str],
    texts: &[(&str, &str)],
) -> Result<(), Fail> {
    let call = Call {
        words,
        texts,
        most: MOST,
        fault: Fault::None,
    };
    let ran = carried_out(alloc, &call)?;
    is_status(ran.status, 0, "two batches")?;
    is_whole(ran.out.bytes())
}

/// Fails unless this is a front of the toggle's trace.
fn is_front(trace: &[u8]) -> Result<(), Fail> {
    if TOGGLE_TRACE.as_bytes().starts_with(trace) {
        return Ok(());
    }
    Err("no front of the trace".into())
}

/// The line of the stage in which this read fails: of each stage its last read is given, in order. None behind the last.
pub fn line_of_read<'x>(stages: &'x [(u64, &'x str)], number: u64) -> &'x str {
    for (last, line) in stages {
        if number <= *last {
            return line;
        }
    }
    ""
}

/// Whether a run of the toggle whose read or write with this number fails is carried out. It fails unless a front of the
/// trace is written, and the run ends with this status and this line where it isn't carried out.
pub fn is_stopped(
    alloc: Global,
    words: &[&str],
    texts: &[(&str, &str)],
    fault: Fault,
    status: u8,
    line: &str,
) -> Result<bool, Fail> {
    let call = Call {
        words,
        texts,
        most: 5,
        fault,
    };
    let ran = carried_out(alloc, &call)?;
    is_front(ran.out.bytes())?;
    if ran.status == 0 {
        return Ok(true);
    }
    is_status(ran.status, status, "a fault")?;
    are_found(ran.err.bytes(), line.as_bytes(), "the line of a fault")?;
    Ok(false)
}

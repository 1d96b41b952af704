//! The program: its arguments, the files of the machine, and standard output and error.
#![tactic(auto)]

use std::alloc::{AllocError, Global};
use std::env::{Env, FillError};
use std::marker::{Send, Sync};
use std::process::ExitCode;
use std::sync::Wait;
use std::thread::Threads;
use vw_course::report;
use vw_link::Links;
use vw_outside::{ErrSink, FileShelf, Name, OpenGate, OutSink};
use vw_top::{Unfinished, virtual_wires};

/// The bytes that are first taken for a word.
const WORD_ROOM: usize = 256;

/// The argument with this number, whatever bytes it has; nothing past the last.
fn argument(
    alloc: Global,
    environment: &impl Env,
    number: usize,
) -> Result<Option<Name>, AllocError> {
    let mut room = WORD_ROOM;
    for _ in 0..usize::BITS {
        let mut buffer = vec![in alloc; 0u8; room]?;
        match environment.arg(number, &mut buffer) {
            Ok(length) => {
                buffer.truncate(length);
                return Ok(Some(Name::of(buffer)));
            }
            Err(FillError::NotPresent) => return Ok(None),
            Err(FillError::TooLong) => room = room.saturating_mul(2),
        }
    }
    Err(AllocError)
}

/// The words after the program's name.
fn words(alloc: Global, environment: &impl Env) -> Result<Vec<Name>, AllocError> {
    let mut words = Vec::new(alloc);
    for number in 1..usize::MAX {
        let Some(name) = argument(alloc, environment, number)? else {
            break;
        };
        words.push(name)?;
    }
    Ok(words)
}

/// Carries out the command of these words over the files of the machine, with workers on these threads, and gives the exit
/// status.
fn exit_status<T: Threads + Wait + Copy + Send + Sync>(
    rt: &HostRuntime,
    threads: &T,
    words: &[Name],
) -> u8 {
    let alloc = rt.alloc();
    let mut shelf = FileShelf::new(alloc, rt);
    let mut out = OutSink::new(rt);
    let mut err = ErrSink::new(rt);
    let mut links = Links::new(*threads, false);
    virtual_wires(
        threads,
        alloc,
        words,
        &mut shelf,
        &mut links,
        &OpenGate::new(),
        &mut out,
        &mut err,
    )
}

fn main(rt: HostRuntime) -> ExitCode {
    let status = match words(rt.alloc(), &rt) {
        Ok(words) => exit_status(&rt, &rt, &words),
        Err(_) => report(rt.alloc(), &Unfinished::NoMemory, &mut ErrSink::new(&rt)),
    };
    ExitCode::from(status)
}

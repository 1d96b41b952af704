//! Calls over texts in memory, and how they ended.
ghost use Rattle.std.specs.Prelude.{◌<◌};

use std::alloc::{AllocError, Global};
use vw_outside::{Held, MemShelf, MemSink, Name};
use vw_top::alone;

/// The words of a simulation, over the files d and s.
pub const SIM: &[&str] = &["sim", "d", "s"];

/// As many bytes as a read or a write may take at most, where it doesn't matter.
pub const MOST: u32 = 4096;

/// What stands for a status where words ask for several workers.
pub const SEVERAL: u8 = 99;

/// Which read, write or write of the message fails: the one with this number, from 1.
#[derive(Clone, Copy)]
pub enum Fault {
    None,
    Read(u64),
    Write(u64),
    Message(u64),
}

impl Fault {
    /// The numbers of the read, the write and the message that fail, or zeros.
    pub fn numbers(self) -> (u64, u64, u64) {
        match self {
            Fault::None => (0, 0, 0),
            Fault::Read(number) => (number, 0, 0),
            Fault::Write(number) => (0, number, 0),
            Fault::Message(number) => (0, 0, number),
        }
    }
}

/// A call over files with these names and texts, each of whose reads and writes takes at most so many bytes.
#[derive(Clone, Copy)]
pub struct Call<'a> {
    pub words: &'a [&'a str],
    pub texts: &'a [(&'a str, &'a str)],
    pub most: u32,
    pub fault: Fault,
}

/// How a call ends, and what it writes.
#[derive(Clone, Copy)]
pub struct End<'a> {
    pub status: u8,
    pub out: &'a str,
    pub err: &'a str,
}

impl<'a> End<'a> {
    /// The end of a call that is carried out, with what it writes.
    pub fn done(out: &'a str) -> Self {
        End {
            status: 0,
            out,
            err: "",
        }
    }

    /// The end of a call that writes a message alone.
    pub fn refused(status: u8, err: &'a str) -> Self {
        End {
            status,
            out: "",
            err,
        }
    }
}

/// How a call ended, and what it wrote.
pub struct Ran {
    pub status: u8,
    pub out: MemSink,
    pub err: MemSink,
}

impl Drop for Ran {
    fn drop(self) {
        let Ran {
            status: _,
            out: _,
            err: _,
        } = self;
    }
}

/// The words of a call, as the program is given them.
pub fn names_of(alloc: Global, words: &[&str]) -> Result<Vec<Name>, AllocError> {
    let mut names = Vec::new(alloc);
    for word in words {
        names.push(Name::of(word.as_bytes().to_vec(alloc)?))?;
    }
    Ok(names)
}

/// A file with this name and these bytes.
pub fn file(alloc: Global, name: &str, bytes: &[u8]) -> Result<Held, AllocError> {
    let name = Name::of(name.as_bytes().to_vec(alloc)?);
    Ok(Held::make(name, bytes.to_vec(alloc)?))
}

/// Files with these names and texts.
pub fn files_of(alloc: Global, texts: &[(&str, &str)]) -> Result<Vec<Held>, AllocError> {
    let mut files = Vec::new(alloc);
    for (name, text) in texts {
        files.push(file(alloc, name, text.as_bytes())?)?;
    }
    Ok(files)
}

/// A sink whose write with this number fails. It has room for 4,096 bytes.
pub fn sink(alloc: Global, most: u32, write: u64) -> Result<MemSink, AllocError> {
    let mut sink = MemSink::new(alloc, most.max(1), vec![in alloc; write]?);
    sink.reserve(4096)?;
    Ok(sink)
}

/// A shelf of these files whose read with this number fails.
fn shelf(alloc: Global, files: Vec<Held>, most: u32, read: u64) -> Result<MemShelf, AllocError> {
    Ok(MemShelf::new(files, most.max(1), vec![in alloc; read]?))
}

/// What a call reads from.
pub fn shelf_of(alloc: Global, call: &Call) -> Result<MemShelf, AllocError> {
    let files = files_of(alloc, call.texts)?;
    shelf(alloc, files, call.most, call.fault.numbers().0)
}

/// What a call writes to.
pub fn out_of(alloc: Global, call: &Call) -> Result<MemSink, AllocError> {
    sink(alloc, call.most, call.fault.numbers().1)
}

/// The program, on what it is given in memory, where no words ask for several workers.
fn program(
    alloc: Global,
    words: &[Name],
    shelf: &mut MemShelf,
    out: &mut MemSink,
    err: &mut MemSink,
) -> u8 {
    alone(alloc, words, shelf, out, err).unwrap_or(SEVERAL)
}

/// How a call over these files ended.
pub fn call_over(
    alloc: Global,
    words: &[&str],
    files: Vec<Held>,
    most: u32,
    fault: Fault,
) -> Result<Ran, AllocError> {
    let (read, write, message) = fault.numbers();
    let mut shelf = shelf(alloc, files, most, read)?;
    let mut out = sink(alloc, most, write)?;
    let mut err = sink(alloc, most, message)?;
    let names = names_of(alloc, words)?;
    let status = program(alloc, &names, &mut shelf, &mut out, &mut err);
    Ok(Ran { status, out, err })
}

/// How a call ended.
pub fn carried_out(alloc: Global, call: &Call) -> Result<Ran, AllocError> {
    let files = files_of(alloc, call.texts)?;
    call_over(alloc, call.words, files, call.most, call.fault)
}

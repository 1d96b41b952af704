//! The regular files of the machine. A shelf over them counts faults and tells nothing.
ghost use Rattle.std.specs.Prelude.{◌≡◌, ◌≤◌, length, IfOk};
ghost use Rattle.vw_outside.specs.Told.{untold};

use crate::name::Name;
use crate::shelf::Shelf;
use crate::sink::Failed;
use std::alloc::Global;
use std::fs::{File, OpenFile};
use std::io::{Read, Seek, SeekFrom};
use std::marker::Model;
use std::rt::Files;
use std::{fs, io};

/// A file that was opened by a name.
#[derive(Drop)]
struct LastFile<F: Drop> {
    name: Name,
    file: F,
}

/// The regular files of the machine, by their paths. The last file that was opened stays open until another name
/// is read or a read fails, so that one reading sees one file. A name is looked up before it is opened. One that
/// isn't UTF-8, or that then stands for anything but a regular file, is a fault and isn't opened. Contracts see the
/// count of faults.
#[derive(Drop)]
pub struct FileShelf<R: Files + Drop> {
    alloc: Global,
    files: R,
    last: Option<LastFile<R::File>>,
    faults: u64,
}

impl<R: Files + Drop> Model for FileShelf<R> {
    ghost use Rattle.std.specs.Prelude.{ℕ};

    ghost Value = { ℕ };

    ghost view = { λ shelf. shelf.faults };
}

/// Opens the regular file of a path.
fn open_regular<R: Files>(files: &R, path: &str) -> io::Result<R::File> {
    if fs::metadata(files, path)?.is_file() {
        let file = File::open(files, path)?;
        // the path may have been given to something else meanwhile
        if file.metadata()?.is_file() {
            return Ok(file);
        }
    }
    Err(io::Error::from(io::ErrorKind::InvalidInput))
}

/// Opens the regular file of a name.
fn open_name<R: Files>(alloc: Global, files: &R, name: &Name) -> io::Result<LastFile<R::File>> {
    let Ok(path) = str::from_utf8(name.as_slice()) else {
        return Err(io::Error::from(io::ErrorKind::InvalidInput));
    };
    let file = open_regular(files, path)?;
    let name = name.copy(alloc)?;
    Ok(LastFile { name, file })
}

/// Goes to a place of a file and reads once.
fn read_at<F: Read + Seek>(file: &mut F, from: u64, into: &mut [u8]) -> io::Result<usize>
    ensures { IfOk result (λ count. count ≤ length into.new) }
{
    file.seek(SeekFrom::Start(from))?;
    file.read(into)
}

impl<R: Files + Drop> FileShelf<R> {
    /// The files of this runtime, with no fault so far. Each opening takes memory for the name.
    pub fn new(alloc: Global, files: R) -> Self
        ensures { result ≡ 0 }
    {
        FileShelf {
            alloc,
            files,
            last: None,
            faults: 0,
        }
    }

    /// Takes the last file if it was opened by this name, else opens one now. None stays behind.
    fn take_opened(&mut self, name: &Name) -> io::Result<LastFile<R::File>>
        ensures { self.new ≡ self.old }
    {
        if let Some(opened) = self.last.take()
            && opened.name.as_slice() == name.as_slice()
        {
            return Ok(opened);
        }
        open_name(self.alloc, &self.files, name)
    }

    /// Reads from the file of a name, which is the last one then.
    fn read_from(&mut self, name: &Name, from: u64, into: &mut [u8]) -> io::Result<usize>
        ensures within { IfOk result (λ count. count ≤ length into.new) }
        ensures same { self.new ≡ self.old }
    {
        let mut opened = self.take_opened(name)?;
        let count = read_at(&mut opened.file, from, into);
        self.last = Some(opened);
        count
    }
}

impl<R: Files + Drop> Shelf for FileShelf<R> {
    ghost seen = { λ shelf. record { told = λ name. untold; faults = λ name. shelf } };

    fn read(&mut self, name: &Name, from: u64, into: &mut [u8]) -> Result<usize, Failed> {
        if let Ok(count) = self.read_from(name, from, into) {
            return Ok(count);
        }
        self.last = None;
        self.faults = self.faults.saturating_add(1);
        Err(Failed)
    }
}

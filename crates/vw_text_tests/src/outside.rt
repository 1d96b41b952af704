ghost use Rattle.std.specs.Prelude.{◌<◌};

use crate::same::assert_same;
use std::alloc::{AllocError, Global};
use std::process::Abort;
use std::test::Fail;
use std::{fs, process};
use vw_outside::{
    ErrSink, FileShelf, Held, MemShelf, MemSink, OutSink, Shelf, Sink, TextRefused, put_all,
    read_text,
};
use vw_samples::name;

/// A path of this process under `/tmp`.
fn path(rt: &HostRuntime, name: &str) -> Result<String, AllocError> {
    let number = process::id(rt.process());
    format!(in rt.alloc(); "/tmp/vw_outside_{number}_{name}")
}

/// The path of a new file with these bytes.
fn new_file(rt: &HostRuntime, name: &str, bytes: &[u8]) -> Result<String, Fail> {
    let path = path(rt, name)?;
    fs::write(rt, path.as_str(), bytes)?;
    Ok(path)
}

/// What one read of at most so many bytes gives, or `fault`.
fn piece<S: Shelf>(
    alloc: Global,
    shelf: &mut S,
    path: &[u8],
    from: u64,
    most: usize,
) -> Result<Vec<u8>, AllocError> {
    let name = name(alloc, path)?;
    let mut piece = vec![in alloc; 0; most]?;
    match shelf.read(&name, from, &mut piece) {
        Ok(count) => {
            piece.truncate(count);
            Ok(piece)
        }
        Err(_) => b"fault".to_vec(alloc),
    }
}

/// A read: a path, the place to read from, and the most bytes that it may give.
type Read<'a> = (&'a [u8], u64, usize);

/// Adds what each of these reads gives, and `|` behind it.
fn add_pieces<S: Shelf>(
    alloc: Global,
    shown: &mut Vec<u8>,
    shelf: &mut S,
    reads: &[Read],
) -> Result<(), AllocError> {
    for (path, from, most) in reads {
        let piece = piece(alloc, shelf, path, *from, *most)?;
        shown.extend_from_slice(&piece)?;
        shown.push(b'|')?;
    }
    Ok(())
}

/// What these reads of files give, with `|` behind each.
fn pieces(rt: &HostRuntime, reads: &[Read]) -> Result<Vec<u8>, AllocError> {
    let mut shelf = FileShelf::new(rt.alloc(), rt);
    let mut shown = Vec::new(rt.alloc());
    add_pieces(rt.alloc(), &mut shown, &mut shelf, reads)?;
    Ok(shown)
}

/// What reads of a file from three places give.
fn places(rt: &HostRuntime, path: &[u8]) -> Result<Vec<u8>, AllocError> {
    pieces(rt, &[(path, 0, 6), (path, 7, 6), (path, 12, 6)])
}

#[test]
fn files_are_read_from_any_place(rt: HostRuntime) -> Result<(), Fail> {
    let path = new_file(&rt, "places", b"eleven chars")?;
    let shown = places(&rt, path.as_bytes())?;
    assert_same(&rt, path.as_bytes(), &shown, b"eleven|chars||");
    fs::remove_file(&rt, path.as_str())?;
    Ok(())
}

/// Gives a path to another file.
fn replace(rt: &HostRuntime, path: &str) -> Result<(), Fail> {
    fs::remove_file(rt, path)?;
    fs::write(rt, path, b"another one")?;
    Ok(())
}

/// Adds what reads of a shelf give while a file is replaced.
fn add_kept<S: Shelf>(
    rt: &HostRuntime,
    shown: &mut Vec<u8>,
    shelf: &mut S,
    path: &str,
) -> Result<(), Fail> {
    add_pieces(rt.alloc(), shown, shelf, &[(path.as_bytes(), 0, 4)])?;
    // the name is given to another file between two reads
    replace(rt, path)?;
    // the file stays open until another name is read, here one that is missing
    let reads = &[
        (path.as_bytes(), 4, 4),
        (b"/tmp/vw_outside_missing".as_slice(), 0, 4),
        (path.as_bytes(), 0, 4),
    ];
    Ok(add_pieces(rt.alloc(), shown, shelf, reads)?)
}

/// What reads of a file give that is replaced meanwhile.
fn kept(rt: &HostRuntime, path: &str) -> Result<Vec<u8>, Fail> {
    let mut shelf = FileShelf::new(rt.alloc(), rt);
    let mut shown = Vec::new(rt.alloc());
    add_kept(rt, &mut shown, &mut shelf, path)?;
    Ok(shown)
}

#[test]
fn one_reading_sees_one_file(rt: HostRuntime) -> Result<(), Fail> {
    let path = new_file(&rt, "kept", b"the old text")?;
    let shown = kept(&rt, path.as_str())?;
    assert_same(&rt, path.as_bytes(), &shown, b"the |old |fault|anot|");
    fs::remove_file(&rt, path.as_str())?;
    Ok(())
}

/// Reads of a missing file, a folder, devices, a name that isn't UTF-8, and none.
const NO_FILES: &[Read] = &[
    (b"/tmp/vw_outside_missing", 0, 6),
    (b"/tmp", 0, 6),
    (b"/dev/null", 0, 6),
    (b"/dev/zero", 0, 6),
    (b"/tmp/\xff", 0, 6),
    (b"", 0, 6),
];

#[test]
fn what_is_no_regular_file_is_a_fault(rt: HostRuntime) -> Result<(), Fail> {
    let shown = pieces(&rt, NO_FILES)?;
    let wanted = b"fault|fault|fault|fault|fault|fault|";
    assert_same(&rt, b"", &shown, wanted);
    Ok(())
}

/// Asserts that a sink takes these bytes.
fn takes<S: Sink>(rt: &impl Abort, sink: &mut S, bytes: &[u8]) {
    assert_eq!(rt; put_all(sink, bytes), Ok(()));
}

#[test]
fn output_takes_what_is_put(rt: HostRuntime) {
    let mut out = OutSink::new(&rt);
    takes(&rt, &mut out, b"to standard output\n");
}

#[test]
fn error_takes_what_is_put(rt: HostRuntime) {
    let mut err = ErrSink::new(&rt);
    takes(&rt, &mut err, b"to standard error\n");
}

/// A text under the name `a`.
pub fn held(alloc: Global, text: &[u8]) -> Result<Held, AllocError> {
    Ok(Held::make(name(alloc, b"a")?, text.to_vec(alloc)?))
}

/// Two texts under one name.
fn two_texts(alloc: Global) -> Result<Vec<Held>, AllocError> {
    let mut texts = Vec::new(alloc);
    texts.push(held(alloc, b"first")?)?;
    texts.push(held(alloc, b"second")?)?;
    Ok(texts)
}

/// The whole text of the name `a`, or why it is refused.
fn whole(alloc: Global, shelf: &mut MemShelf, limit: u32) -> Result<Vec<u8>, AllocError> {
    let name = name(alloc, b"a")?;
    match read_text(alloc, shelf, &name, u64::from(limit)) {
        Ok(text) => Ok(text),
        Err(TextRefused::TooLarge) => b"too large".to_vec(alloc),
        Err(_) => b"fault".to_vec(alloc),
    }
}

/// Adds the whole text of the name `a`, or why it is refused, and `|`.
fn add_whole(shown: &mut Vec<u8>, shelf: &mut MemShelf, limit: u32) -> Result<(), AllocError> {
    let text = whole(*shown.allocator(), shelf, limit)?;
    shown.extend_from_slice(&text)?;
    shown.push(b'|')?;
    Ok(())
}

/// Adds what is read, with two limits, of two texts where each read gives at most so many bytes.
fn add_texts(alloc: Global, shown: &mut Vec<u8>, most: u32) -> Result<(), AllocError>
    requires { 0 < most }
{
    let texts = two_texts(alloc)?;
    let mut shelf = MemShelf::new(texts, most, Vec::new(alloc));
    add_whole(shown, &mut shelf, 5)?;
    add_whole(shown, &mut shelf, 4)
}

#[test]
fn a_text_in_memory_is_read_whole(rt: HostRuntime) -> Result<(), Fail> {
    let mut shown = Vec::new(rt.alloc());
    add_texts(rt.alloc(), &mut shown, 1)?;
    add_texts(rt.alloc(), &mut shown, 3)?;
    add_texts(rt.alloc(), &mut shown, 100)?;
    let wanted = b"first|too large|first|too large|first|too large|";
    assert_same(&rt, b"", &shown, wanted);
    Ok(())
}

#[test]
fn a_sink_in_memory_has_room_to_spare(rt: HostRuntime) -> Result<(), Fail> {
    let mut sink = MemSink::new(rt.alloc(), 4, Vec::new(rt.alloc()));
    sink.reserve(6)?;
    takes(&rt, &mut sink, b"abcdef");
    assert_same(&rt, b"put", sink.bytes(), b"abcdef");
    let too_much = sink.reserve(u64::MAX);
    assert!(rt; too_much.is_err());
    assert_same(&rt, b"too much", sink.bytes(), b"abcdef");
    Ok(())
}

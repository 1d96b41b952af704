//! Texts of states worked out by hand, and the faults of others.
use std::alloc::{AllocError, Global};
use std::process::Abort;
use std::test::Fail;
use vw_resume::{LONGEST_STATE, State, StateFault};

/// A text, how many latches are wanted, and what is found: the text again, or the line of a fault.
const TEXTS: &[(&[u8], u32, &[u8])] = &[
    (b"state 1 1 1 1\n", 1, b"state 1 1 1 1\n"),
    (b"state 1 3 0 -\n", 0, b"state 1 3 0 -\n"),
    (b"state 1 0 2 10\n", 2, b"state 1 0 2 10\n"),
    (b"state 1 4294967295 1 0\n", 1, b"state 1 4294967295 1 0\n"),
    (b"state 1 1 2 10\n", 1, b"state 2: 2 latches, wanted 1\n"),
    (b"state 1 3 0 -\n", 4, b"state 2: 0 latches, wanted 4\n"),
    (b"state 1 4294967296 1 0\n", 1, b"state 1: bad text\n"),
    (
        b"state 1 18446744073709551616 1 0\n",
        1,
        b"state 1: bad text\n",
    ),
    (b"state 1 01 1 1\n", 1, b"state 1: bad text\n"),
    (b"state 1 1 01 1\n", 1, b"state 1: bad text\n"),
    (b"state 1 1 1 10\n", 1, b"state 1: bad text\n"),
    (b"state 1 1 2 1\n", 2, b"state 1: bad text\n"),
    (b"state 1 1 2 1\n", 1, b"state 1: bad text\n"),
    (b"state 1 1 1 -\n", 1, b"state 1: bad text\n"),
    (b"state 1 1 0 \n", 0, b"state 1: bad text\n"),
    (b"state 1 1 0 -1\n", 0, b"state 1: bad text\n"),
    (b"state 1 1 1 1", 1, b"state 1: bad text\n"),
    (b"state 1 1 1 1\n\n", 1, b"state 1: bad text\n"),
    (b"state 1 1 1 1\r\n", 1, b"state 1: bad text\n"),
    (b"state 1  1 1 1\n", 1, b"state 1: bad text\n"),
    (b" state 1 1 1 1\n", 1, b"state 1: bad text\n"),
    (b"state 2 1 1 1\n", 1, b"state 1: bad text\n"),
    (b"trace 1 1 1\n", 1, b"state 1: bad text\n"),
    (b"\n", 0, b"state 1: bad text\n"),
];

/// The state before clock 10 of three latches.
const TEN: &[u8] = b"state 1 10 3 101\n";

/// The message lines.
const LINES: &[(StateFault, &[u8])] = &[
    (StateFault::BadText, b"state 1: bad text\n"),
    (
        StateFault::WrongLatches(2, 1),
        b"state 2: 2 latches, wanted 1\n",
    ),
    (
        StateFault::TooManyClocks(4_294_967_296),
        b"state 3: 4294967296 clocks\n",
    ),
    (StateFault::NoMemory, b"out of memory\n"),
];

/// What is found in a text: the text of the state, or the line of the fault.
fn found_in(alloc: Global, text: &[u8], latches: u32) -> Result<Vec<u8>, AllocError> {
    match State::read(alloc, text, latches) {
        Ok(state) => state.print(alloc),
        Err(fault) => fault.text(alloc),
    }
}

/// Asserts that this text is found.
fn is_text(rt: &impl Abort, found: &[u8], wanted: &[u8]) {
    assert_eq!(rt; found, wanted);
}

#[test]
fn texts_are_read_and_printed(rt: HostRuntime) -> Result<(), Fail> {
    for (text, latches, wanted) in TEXTS {
        is_text(&rt, &found_in(rt.alloc(), text, *latches)?, wanted);
    }
    Ok(())
}

#[test]
fn faults_have_their_lines(rt: HostRuntime) -> Result<(), Fail> {
    for (fault, line) in LINES {
        is_text(&rt, &fault.text(rt.alloc())?, line);
    }
    Ok(())
}

/// Whether a text is that of a state with three latches.
fn is_state(alloc: Global, text: &[u8]) -> bool {
    State::read(alloc, text, 3).is_ok()
}

#[test]
fn no_front_of_a_text_is_a_state(rt: HostRuntime) {
    let mut accepted = 0u32;
    for end in 0..TEN.len() {
        if is_state(rt.alloc(), &TEN[..end]) {
            accepted = accepted.saturating_add(1);
        }
    }
    assert_eq!(rt; accepted, 0);
}

/// Whether the text is that of a state, too, where this byte stands at this place: another clock without a leading zero, or
/// another value of a latch.
fn may_stand(place: usize, byte: u8) -> bool {
    match place {
        8 => byte.is_ascii_digit() && byte != b'0',
        9 => byte.is_ascii_digit(),
        13 | 14 | 15 => byte == b'0' || byte == b'1',
        _ => false,
    }
}

/// How many bytes at a place are taken or refused where they shouldn't be.
fn wrong_at(alloc: Global, place: usize) -> Result<u32, AllocError> {
    let mut wrong = 0u32;
    for byte in 0..=255u8 {
        let mut text = Vec::from_slice(alloc, TEN)?;
        if let Some(old) = text.get_mut(place) {
            *old = byte;
        }
        let wanted = may_stand(place, byte) || TEN.get(place) == Some(&byte);
        if is_state(alloc, &text) != wanted {
            wrong = wrong.saturating_add(1);
        }
    }
    Ok(wrong)
}

#[test]
fn every_byte_of_a_text_is_looked_at(rt: HostRuntime) -> Result<(), Fail> {
    for place in 0..TEN.len() {
        assert_eq!(rt; wrong_at(rt.alloc(), place)?, 0);
    }
    Ok(())
}

/// The text with this number of latches and as many bits `1`.
fn large(alloc: Global, latches: usize) -> Result<Vec<u8>, AllocError> {
    let mut text = format!(in alloc; "state 1 4294967295 {latches} ")?.into_bytes();
    for _ in 0..latches {
        text.push(b'1')?;
    }
    text.push(b'\n')?;
    Ok(text)
}

#[test]
fn the_largest_state_is_read(rt: HostRuntime) -> Result<(), Fail> {
    let alloc = rt.alloc();
    let most = large(alloc, 65_536)?;
    is_text(&rt, &found_in(alloc, &most, 65_536)?, &most);
    is_text(
        &rt,
        &found_in(alloc, &most, 65_535)?,
        b"state 2: 65536 latches, wanted 65535\n",
    );
    let more = large(alloc, 65_537)?;
    is_text(
        &rt,
        &found_in(alloc, &more, 65_537)?,
        b"state 1: bad text\n",
    );
    let long = large(alloc, LONGEST_STATE)?;
    is_text(
        &rt,
        &found_in(alloc, &long, 70_000)?,
        b"state 1: bad text\n",
    );
    Ok(())
}

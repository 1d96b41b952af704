use crate::same::{assert_number, assert_same};
use std::alloc::{AllocError, Global};
use std::process::Abort;
use std::test::Fail;
use vw_net::Rows;
use vw_outside::{Failed, Name, Shelf};
use vw_rows::{StimFault, Stimulus};
use vw_samples::name;

/// A shelf that tells nothing, has one text under every name, gives at most so many bytes a read, and fails at one read.
#[derive(Drop)]
pub(crate) struct Quiet {
    text: Vec<u8>,
    most: usize,
    calls: u64,
    failing: u64,
    faults: u64,
}

impl Shelf for Quiet {
    ghost use Rattle.vw_outside.specs.Told.{untold};

    ghost seen = { λ shelf. record { told = λ name. untold; faults = λ name. shelf.faults } };

    fn read(&mut self, _: &Name, from: u64, into: &mut [u8]) -> Result<usize, Failed> {
        self.calls = self.calls.saturating_add(1);
        if self.calls == self.failing {
            self.faults = self.faults.saturating_add(1);
            return Err(Failed);
        }
        let from = self.text.len().min(from as usize);
        let rest = &self.text[from..];
        let count = rest.len().min(into.len()).min(self.most);
        into[..count].copy_from_slice(&rest[..count]);
        Ok(count)
    }
}

/// Such a shelf, of which no read fails.
pub(crate) fn quiet_shelf(alloc: Global, text: &[u8], most: usize) -> Result<Quiet, AllocError> {
    Ok(Quiet {
        text: text.to_vec(alloc)?,
        most,
        calls: 0,
        failing: 0,
        faults: 0,
    })
}

/// Adds the characters of a row, or `-`, and `|`.
fn add_row(shown: &mut Vec<u8>, row: &[bool]) -> Result<(), AllocError> {
    if row.len() == 0 {
        shown.push(b'-')?;
    }
    for bit in row {
        shown.push(if *bit { b'1' } else { b'0' })?;
    }
    shown.push(b'|')?;
    Ok(())
}

/// Adds a batch of rows, and `/`.
fn add_batch(shown: &mut Vec<u8>, batch: &Rows) -> Result<(), AllocError> {
    for place in 0..batch.len() {
        add_row(shown, batch.row(place))?;
    }
    shown.push(b'/')?;
    Ok(())
}

/// Adds the rows of a stimulus in batches of a size, at most 20 batches, and each fault. A read that failed is tried
/// again.
fn add_batches(
    alloc: Global,
    shown: &mut Vec<u8>,
    shelf: &mut Quiet,
    stimulus: &mut Stimulus,
    most: u32,
) -> Result<(), AllocError> {
    for _ in 0..20 {
        match stimulus.next_batch(alloc, shelf, most.max(1)) {
            Ok(batch) if batch.len() == 0 => break,
            Ok(batch) => add_batch(shown, &batch)?,
            Err(fault) => {
                shown.extend_from_slice(&fault.text(alloc)?)?;
                if fault != StimFault::ReadFault {
                    break;
                }
            }
        }
    }
    Ok(())
}

/// The rows of the text of a shelf in batches of a size, or its fault.
fn read(alloc: Global, shelf: &mut Quiet, width: u32, most: u32) -> Result<Vec<u8>, AllocError> {
    let name = name(alloc, b"a")?;
    match Stimulus::check(alloc, shelf, &name, width) {
        Ok(mut stimulus) => {
            let mut shown = Vec::new(alloc);
            add_batches(alloc, &mut shown, shelf, &mut stimulus, most)?;
            Ok(shown)
        }
        Err(fault) => fault.text(alloc),
    }
}

/// The rows of a text that is read in pieces of a size, in batches of a size, or its fault.
fn shown(
    alloc: Global,
    text: &[u8],
    width: u32,
    most: u32,
    piece: usize,
) -> Result<Vec<u8>, AllocError> {
    let mut shelf = quiet_shelf(alloc, text, piece)?;
    read(alloc, &mut shelf, width, most)
}

/// Asserts of each text with so many columns what its rows are in one batch, or its fault, in large pieces and in
/// pieces of one byte.
fn assert_all(
    rt: &impl Abort,
    alloc: Global,
    table: &[(&[u8], u32, &[u8])],
) -> Result<(), AllocError> {
    for (text, width, wanted) in table {
        let found = shown(alloc, text, *width, 256, 65_536)?;
        assert_same(rt, text, &found, wanted);
        let found = shown(alloc, text, *width, 256, 1)?;
        assert_same(rt, text, &found, wanted);
    }
    Ok(())
}

/// Texts, their columns and their rows, or the fault.
const KINDS: &[(&[u8], u32, &[u8])] = &[
    (b"", 2, b""),
    (b"10\n01", 2, b"10|01|/"),
    (b"10\n01\n", 2, b"10|01|/"),
    // lines without words, and comments
    (b"\n \t\r\n10\n\n", 2, b"10|/"),
    (b"# one\n10 # two\n01#three\n#10", 2, b"10|01|/"),
    // blanks around words
    (b"  10\t\n\x0b01\x0c\r\n", 2, b"10|01|/"),
    // held rows
    (b"10\nhold 2\n01", 2, b"10|10|10|01|/"),
    (b"10\nhold 1\nhold 2\n", 2, b"10|10|10|10|/"),
    (b"10\nhold 0\n01\nhold 0\nhold 1", 2, b"10|01|01|/"),
    (b"10\n  hold\t1 # again\n", 2, b"10|10|/"),
    // before the first row there are zeros
    (b"hold 2\n11\nhold 1", 2, b"00|00|11|11|/"),
    (b"hold 0\nhold 1\n", 3, b"000|/"),
    (b"hold 0", 1, b""),
    (b"hold 1\nhold 1", 1, b"0|0|/"),
    // no columns
    (b"-\n-\n", 0, b"-|-|/"),
    (b"-\nhold 2", 0, b"-|-|-|/"),
    (b"hold 2\n- # none", 0, b"-|-|-|/"),
    (b"hold 0\n", 0, b""),
    (b"0\n", 0, b"stimulus 3: line 1: found 1 bits, wanted 0\n"),
    (b"1\n1\n0\n", 1, b"1|1|0|/"),
    (b"\n\n#\n", 0, b""),
];

#[test]
fn each_kind_of_line_adds_its_rows(rt: HostRuntime) -> Result<(), Fail> {
    assert_all(&rt, rt.alloc(), KINDS)?;
    Ok(())
}

/// Texts, their columns and the first fault.
const FAULTS: &[(&[u8], u32, &[u8])] = &[
    (b"1\n2\n", 1, b"stimulus 2: line 2: bad line\n"),
    (b"1 0", 1, b"stimulus 2: line 1: bad line\n"),
    (b"\n# 1\n 1 0\n", 1, b"stimulus 2: line 3: bad line\n"),
    (b"10\\\n", 3, b"stimulus 2: line 1: bad line\n"),
    (b"1\\\n0\n", 2, b"stimulus 2: line 1: bad line\n"),
    (b"1\x000", 3, b"stimulus 2: line 1: bad line\n"),
    (b"x", 3, b"stimulus 2: line 1: bad line\n"),
    (b"-0", 2, b"stimulus 2: line 1: bad line\n"),
    (b"- -", 0, b"stimulus 2: line 1: bad line\n"),
    (b"--", 0, b"stimulus 2: line 1: bad line\n"),
    (b"-\n--", 0, b"stimulus 2: line 2: bad line\n"),
    (b"hold", 1, b"stimulus 2: line 1: bad line\n"),
    (b"hold 1 1", 1, b"stimulus 2: line 1: bad line\n"),
    (b"hold 01", 1, b"stimulus 2: line 1: bad line\n"),
    (b"hold 00", 1, b"stimulus 2: line 1: bad line\n"),
    (b"hold -1", 1, b"stimulus 2: line 1: bad line\n"),
    (b"hold 1x", 1, b"stimulus 2: line 1: bad line\n"),
    (b"hold x", 1, b"stimulus 2: line 1: bad line\n"),
    (b"hold1", 1, b"stimulus 2: line 1: bad line\n"),
    (b"Hold 1", 1, b"stimulus 2: line 1: bad line\n"),
    (b"holds 1", 1, b"stimulus 2: line 1: bad line\n"),
    (b"hol 1", 1, b"stimulus 2: line 1: bad line\n"),
    (b"1 hold", 1, b"stimulus 2: line 1: bad line\n"),
    (b"hold 4294967296", 1, b"stimulus 2: line 1: bad line\n"),
    (
        b"hold 18446744073709551616",
        1,
        b"stimulus 2: line 1: bad line\n",
    ),
    (
        b"10\n1\n0",
        2,
        b"stimulus 3: line 2: found 1 bits, wanted 2\n",
    ),
    (b"101", 2, b"stimulus 3: line 1: found 3 bits, wanted 2\n"),
    (b"-", 2, b"stimulus 3: line 1: found 0 bits, wanted 2\n"),
    (
        b"hold 1\n-\n",
        1,
        b"stimulus 3: line 2: found 0 bits, wanted 1\n",
    ),
    // of several lines at fault the first
    (
        b"10\n-\nx",
        2,
        b"stimulus 3: line 2: found 0 bits, wanted 2\n",
    ),
    (b"10\nx\n-", 2, b"stimulus 2: line 2: bad line\n"),
    (b"12\n1", 3, b"stimulus 2: line 1: bad line\n"),
];

#[test]
fn the_first_line_at_fault_is_named(rt: HostRuntime) -> Result<(), Fail> {
    assert_all(&rt, rt.alloc(), FAULTS)?;
    Ok(())
}

/// Texts with one column that have or would have very many clocks, and the first fault.
const CLOCKS: &[(&[u8], u32, &[u8])] = &[
    (b"hold 4294967295\n1", 1, b"stimulus 4: 4294967296 clocks\n"),
    (b"1\nhold 4294967295", 1, b"stimulus 4: 4294967296 clocks\n"),
    (
        b"hold 4294967295\nhold 1",
        1,
        b"stimulus 4: 4294967296 clocks\n",
    ),
    (
        b"hold 4294967295\nhold 4294967295",
        1,
        b"stimulus 4: 8589934590 clocks\n",
    ),
    (
        b"1\n0\nhold 4294967290\nhold 7\n1",
        1,
        b"stimulus 4: 4294967299 clocks\n",
    ),
    // a line at fault before the one with which there are too many, and one behind it
    (
        b"hold 4294967295\nx\n1",
        1,
        b"stimulus 2: line 2: bad line\n",
    ),
    (
        b"hold 4294967295\n-\n1",
        1,
        b"stimulus 3: line 2: found 0 bits, wanted 1\n",
    ),
    (
        b"hold 4294967295\n1\nx\n",
        1,
        b"stimulus 4: 4294967296 clocks\n",
    ),
];

#[test]
fn clocks_are_counted_over_all_lines(rt: HostRuntime) -> Result<(), Fail> {
    assert_all(&rt, rt.alloc(), CLOCKS)?;
    Ok(())
}

/// The clocks of the text of a shelf and the size of their first batch of at most 256, where it has no fault.
fn counted(alloc: Global, text: &[u8], width: u32) -> Result<(u64, u64), Fail> {
    let mut shelf = quiet_shelf(alloc, text, 65_536)?;
    let name = name(alloc, b"a")?;
    let Ok(mut stimulus) = Stimulus::check(alloc, &mut shelf, &name, width) else {
        return Err("a fault".into());
    };
    let Ok(batch) = stimulus.next_batch(alloc, &mut shelf, 256) else {
        return Err("a fault of the batch".into());
    };
    Ok((stimulus.clocks(), batch.len() as u64))
}

/// Asserts of each text with so many columns how many clocks and how many rows in the first batch it has.
fn assert_counts(
    rt: &impl Abort,
    alloc: Global,
    table: &[(&[u8], u32, u64, u64)],
) -> Result<(), Fail> {
    for (text, width, clocks, rows) in table {
        let found = counted(alloc, text, *width)?;
        assert_number(rt, text, Some(found.0), Some(*clocks));
        assert_number(rt, text, Some(found.1), Some(*rows));
    }
    Ok(())
}

/// Texts and their columns, each with as many clocks as there may be.
const MOST_CLOCKS: &[(&[u8], u32, u64, u64)] = &[
    (b"hold 4294967295", 1, 4_294_967_295, 256),
    (b"1\nhold 4294967294\nhold 0\n", 1, 4_294_967_295, 256),
    (b"hold 4294967293\n1\n0\n", 1, 4_294_967_295, 256),
    (b"-\nhold 4294967294", 0, 4_294_967_295, 256),
];

#[test]
fn as_many_clocks_as_there_may_be_take_little_memory(rt: HostRuntime) -> Result<(), Fail> {
    assert_counts(&rt, rt.alloc(), MOST_CLOCKS)
}

/// A text of six runs, with two columns.
const RUNS: &[u8] = b"hold 1\n10\nhold 2\n01\n11\nhold 1\n";

/// The size of a batch, and the rows of those runs in such batches.
const BATCHES: &[(u32, &[u8])] = &[
    (1, b"00|/10|/10|/10|/01|/11|/11|/"),
    (2, b"00|10|/10|10|/01|11|/11|/"),
    (3, b"00|10|10|/10|01|11|/11|/"),
    (6, b"00|10|10|10|01|11|/11|/"),
    (7, b"00|10|10|10|01|11|11|/"),
    (256, b"00|10|10|10|01|11|11|/"),
];

/// Asserts of each size of a batch what the batches of those runs are.
fn assert_batches(
    rt: &impl Abort,
    alloc: Global,
    table: &[(u32, &[u8])],
) -> Result<(), AllocError> {
    for (most, wanted) in table {
        let found = shown(alloc, RUNS, 2, *most, 65_536)?;
        assert_same(rt, RUNS, &found, wanted);
    }
    Ok(())
}

#[test]
fn batches_go_over_runs(rt: HostRuntime) -> Result<(), Fail> {
    assert_counts(&rt, rt.alloc(), &[(RUNS, 2, 7, 7)])?;
    assert_batches(&rt, rt.alloc(), BATCHES)?;
    Ok(())
}

/// A text of 8388608 rows.
fn long(alloc: Global) -> Result<Vec<u8>, AllocError> {
    let mut text = Vec::new(alloc);
    for _ in 0..8_388_608 {
        text.extend_from_slice(b"1\n")?;
    }
    Ok(text)
}

#[test]
fn a_long_text_is_read(rt: HostRuntime) -> Result<(), Fail> {
    let text = long(rt.alloc())?;
    assert_counts(&rt, rt.alloc(), &[(&text, 1, 8_388_608, 256)])
}

/// A text, the one that stands in its place when it is read again, and what its rows are then, with one column, in
/// batches of two.
const CHANGED: &[(&[u8], &[u8], &[u8])] = &[
    // shorter, longer, another width, a bad line, and too many clocks
    (
        b"1\n0\n1\n",
        b"1\n0\n",
        b"1|0|/stimulus 2: line 3: bad line\n",
    ),
    (b"1\n0\n1\n", b"", b"stimulus 2: line 1: bad line\n"),
    (b"1\n0\n", b"1\n0\n1\n", b"1|0|/"),
    (
        b"1\n0\n1\n",
        b"1\n0\n10\n",
        b"1|0|/stimulus 3: line 3: found 2 bits, wanted 1\n",
    ),
    (
        b"1\n0\n1\n",
        b"1\n0\n1 1\n",
        b"1|0|/stimulus 2: line 3: bad line\n",
    ),
    (
        b"1\n0\n1\n",
        b"1\n0\nhold 4294967295",
        b"1|0|/stimulus 4: 4294967297 clocks\n",
    ),
];

/// What the rows of a text are if another stands in its place when it is read again.
fn changed(alloc: Global, first: &[u8], second: &[u8]) -> Result<Vec<u8>, AllocError> {
    let mut shelf = quiet_shelf(alloc, first, 65_536)?;
    let name = name(alloc, b"a")?;
    match Stimulus::check(alloc, &mut shelf, &name, 1) {
        Ok(mut stimulus) => {
            let mut later = quiet_shelf(alloc, second, 65_536)?;
            let mut shown = Vec::new(alloc);
            add_batches(alloc, &mut shown, &mut later, &mut stimulus, 2)?;
            Ok(shown)
        }
        Err(fault) => fault.text(alloc),
    }
}

#[test]
fn another_text_in_its_place_is_found_at_fault(rt: HostRuntime) -> Result<(), Fail> {
    for (first, second, wanted) in CHANGED {
        let found = changed(rt.alloc(), first, second)?;
        assert_same(&rt, second, &found, wanted);
    }
    Ok(())
}

/// The number of a read that fails, and what the rows are then: three reads are those of the check.
const FAILING: &[(u64, &[u8])] = &[
    (1, b"read fault: stimulus\n"),
    (2, b"read fault: stimulus\n"),
    (3, b"read fault: stimulus\n"),
    (4, b"read fault: stimulus\n10|10|10|01|/"),
    (5, b"read fault: stimulus\n10|10|10|01|/"),
    (6, b"10|10|10|01|/"),
];

#[test]
fn a_read_that_fails_loses_no_row(rt: HostRuntime) -> Result<(), Fail> {
    for (failing, wanted) in FAILING {
        let mut shelf = quiet_shelf(rt.alloc(), b"10\nhold 2\n01", 65_536)?;
        shelf.failing = *failing;
        let found = read(rt.alloc(), &mut shelf, 2, 256)?;
        assert_same(&rt, b"a read that fails", &found, wanted);
    }
    Ok(())
}

/// A shelf that has one byte, at the place 1073741824.
#[derive(Drop)]
struct Far {
    calls: u64,
}

impl Shelf for Far {
    ghost use Rattle.vw_outside.specs.Told.{untold};

    ghost seen = { λ shelf. record { told = λ name. untold; faults = λ name. 0 } };

    fn read(&mut self, _: &Name, from: u64, into: &mut [u8]) -> Result<usize, Failed> {
        self.calls = self.calls.saturating_add(1);
        if from == 1_073_741_824 && !into.is_empty() {
            into[0] = b'0';
            return Ok(1);
        }
        Ok(0)
    }
}

#[test]
fn a_text_past_the_limit_is_refused_at_the_first_read(rt: HostRuntime) -> Result<(), Fail> {
    let mut shelf = Far { calls: 0 };
    let name = name(rt.alloc(), b"a")?;
    match Stimulus::check(rt.alloc(), &mut shelf, &name, 1) {
        Ok(_) => return Err("no fault".into()),
        Err(fault) => {
            let found = fault.text(rt.alloc())?;
            let wanted = b"stimulus 1: text longer than 1073741824 bytes\n";
            assert_same(&rt, b"one byte", &found, wanted);
        }
    }
    assert_number(&rt, b"reads", Some(shelf.calls), Some(1));
    Ok(())
}

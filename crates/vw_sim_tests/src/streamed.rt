//! A stimulus that is read twice: in batches of 256 clocks, over reads and writes that fail, and over a shelf that tells
//! nothing, whose second reading differs from its first.
use std::alloc::Global;
use std::test::Fail;
use vw_outside::{Failed, Name, Shelf};
use vw_sample_calls::{
    Call, End, Fault, MOST, Ran, SEVERAL, SIM, are_found, batches_are_joined, carried_out,
    has_ended, is_stopped, line_of_read, names_of, sink,
};
use vw_samples::{TOGGLE, TOGGLE_ROWS, TOGGLE_RUN, TOGGLE_TRACE, spelled};
use vw_top::alone;

/// The stimulus of the batches: one row, and so many copies of it that there are 257 clocks.
const CLOCKS_257: &[(&str, &str)] = &[("d", TOGGLE), ("s", "1\nhold 256\n")];

#[test]
fn a_batch_goes_on_where_the_one_before_ended(rt: HostRuntime) -> Result<(), Fail> {
    batches_are_joined(rt.alloc(), SIM, CLOCKS_257)
}

#[test]
fn each_read_of_both_readings_may_fail(rt: HostRuntime) -> Result<(), Fail> {
    // of the design's 78 bytes 5 are read at a time, and one read finds its end; of the stimulus of 6 bytes the first read
    // asks for one past the limit, three check the text, and two read its rows again
    const STAGES: &[(u64, &str)] = &[(17, "read fault: design\n"), (23, "read fault: stimulus\n")];
    let mut stopped = 0u64;
    for number in 1u64..200 {
        let fault = Fault::Read(number);
        let line = line_of_read(STAGES, number);
        if is_stopped(rt.alloc(), SIM, TOGGLE_RUN, fault, 7, line)? {
            break;
        }
        stopped = number;
    }
    assert_eq!(rt; stopped, 23);
    Ok(())
}

#[test]
fn each_write_of_a_trace_may_fail(rt: HostRuntime) -> Result<(), Fail> {
    let mut stopped = 0u64;
    for number in 1u64..60 {
        let fault = Fault::Write(number);
        if is_stopped(rt.alloc(), SIM, TOGGLE_RUN, fault, 8, "write fault\n")? {
            break;
        }
        stopped = number;
    }
    assert_eq!(rt; stopped > 7, true);
    assert_eq!(rt; stopped < 39, true);
    Ok(())
}

/// Whether a byte is one of these.
fn is_one_of(byte: u8, some: &[u8]) -> bool {
    for one in some {
        if *one == byte {
            return true;
        }
    }
    false
}

/// How many lines of a text begin with one of these bytes.
fn lines_with(text: &[u8], first: &[u8]) -> u32 {
    let mut count = 0u32;
    let mut begins = true;
    for byte in text {
        if begins && is_one_of(*byte, first) {
            count = count.saturating_add(1);
        }
        begins = *byte == b'\n';
    }
    count
}

/// The toggle with these rows.
fn toggle_with<'x>(rows: &'x str) -> [(&'x str, &'x str); 2] {
    [("d", TOGGLE), ("s", rows)]
}

/// How many clocks a call with these words over these rows has written where this read fails; None where there is no such
/// read. Lines of clocks begin with one of these bytes.
fn clocks_before(
    alloc: Global,
    words: &[&str],
    rows: &str,
    number: u64,
    first: &[u8],
) -> Result<Option<u32>, Fail> {
    let texts = toggle_with(rows);
    let call = Call {
        words,
        texts: &texts,
        most: MOST,
        fault: Fault::Read(number),
    };
    let ran = carried_out(alloc, &call)?;
    if ran.status == 0 {
        return Ok(None);
    }
    let line = line_of_read(STREAMED, number);
    are_found(ran.err.bytes(), line.as_bytes(), "a failing read")?;
    Ok(Some(lines_with(ran.out.bytes(), first)))
}

/// Two reads of the design, three that check the stimulus, and one for each of its three batches.
const STREAMED: &[(u64, &str)] = &[(2, "read fault: design\n"), (8, "read fault: stimulus\n")];

/// The rows of 513 clocks are read again as batches of 256, 256 and 1: where the read of one fails, the clocks of those
/// before it are written.
#[test]
fn whole_batches_are_written_before_a_read_that_fails(rt: HostRuntime) -> Result<(), Fail> {
    const COMMANDS: &[(&[&str], &[u8])] = &[
        (&["sim", "d", "s"], b"0123456789"),
        (&["wave", "d", "s"], b"#"),
    ];
    const WRITTEN: &[(u64, Option<u32>)] = &[
        (5, Some(0)),
        (6, Some(0)),
        (7, Some(256)),
        (8, Some(512)),
        (9, None),
    ];
    let alloc = rt.alloc();
    let rows = spelled(alloc, &[(513, "1\n")])?;
    for (words, first) in COMMANDS {
        for (number, wanted) in WRITTEN {
            let found = clocks_before(alloc, words, rows.as_str(), *number, first)?;
            assert_eq!(&rt; found, *wanted, "{number}");
        }
    }
    Ok(())
}

/// A shelf that tells nothing. Its design is the toggle, and its stimulus changes once it was read to its end.
#[derive(Drop)]
struct Changing<'a> {
    first: &'a [u8],
    second: &'a [u8],
    /// How often the stimulus was read from its beginning.
    readings: u64,
}

impl<'a> Shelf for Changing<'a> {
    ghost use Rattle.vw_outside.specs.Told.{untold};

    ghost seen = { λ shelf. record { told = λ name. untold; faults = λ name. 0 } };

    fn read(&mut self, name: &Name, from: u64, into: &mut [u8]) -> Result<usize, Failed> {
        if name.is(b"s") && from == 0 {
            self.readings = self.readings.saturating_add(1);
        }
        let text = if name.is(b"d") {
            TOGGLE.as_bytes()
        } else if self.readings > 1 {
            self.second
        } else {
            self.first
        };
        let rest = &text[text.len().min(from as usize)..];
        let count = rest.len().min(into.len());
        into[..count].copy_from_slice(&rest[..count]);
        Ok(count)
    }
}

/// Asserts how a run of the toggle ends whose stimulus changes after it was checked.
fn change_ends(alloc: Global, first: &str, second: &str, end: End) -> Result<(), Fail> {
    let mut shelf = Changing {
        first: first.as_bytes(),
        second: second.as_bytes(),
        readings: 0,
    };
    let mut out = sink(alloc, MOST, 0)?;
    let mut err = sink(alloc, MOST, 0)?;
    let names = names_of(alloc, SIM)?;
    let status = alone(alloc, &names, &mut shelf, &mut out, &mut err).unwrap_or(SEVERAL);
    let ran = Ran { status, out, err };
    has_ended(&ran, second, end)?;
    Ok(())
}

#[test]
fn a_stimulus_that_changes_may_be_refused_after_some_lines(rt: HostRuntime) -> Result<(), Fail> {
    const HEAD: &str = "trace 1 1 1\n";
    const TABLE: &[(&str, u8, &str, &str)] = &[
        // it is longer: no more rows are read than were counted
        ("1\n1\n0\n1\n", 0, TOGGLE_TRACE, ""),
        // other rows of the same width
        (
            "0\n0\n0\n",
            0,
            "trace 1 1 1\n0 0 0\n1 0 0\n2 0 0\nend 3 0\n",
            "",
        ),
        // it is shorter: the line that was looked for is named
        ("1\n1\n", 5, HEAD, "stimulus 2: line 3: bad line\n"),
        (
            "11\n1\n0\n",
            5,
            HEAD,
            "stimulus 3: line 1: found 2 bits, wanted 1\n",
        ),
        ("1\nx\n0\n", 5, HEAD, "stimulus 2: line 2: bad line\n"),
    ];
    for (second, status, out, err) in TABLE {
        let end = End {
            status: *status,
            out,
            err,
        };
        change_ends(rt.alloc(), TOGGLE_ROWS, second, end)?;
    }
    Ok(())
}

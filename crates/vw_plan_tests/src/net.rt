ghost use Rattle.std.specs.Prelude.{◌≡◌, length, IfOk};

use crate::netlists::gate;
use std::alloc::{AllocError, Global};
use std::process::Abort;
use std::test::Fail;
use vw_net::{Bits, Cell, Cover, Flat, Init, Mark, Row, Sequence};

/// The row that a text of `0`, `1` and `-` spells, with `-` where it ends early.
fn row(alloc: Global, width: u32, text: &[u8]) -> Result<Row, AllocError>
    ensures { IfOk result (λ row. length row.marks ≡ width) }
{
    let mut marks = Vec::new(alloc);
    for i in 0..width as usize {
        let mark = match text.get(i) {
            Some(b'0') => Mark::Zero,
            Some(b'1') => Mark::One,
            _ => Mark::Any,
        };
        marks.push(mark)?;
    }
    Ok(Row::make(Sequence::of(marks)))
}

/// The bits that a text of `0` and `1` spells, with 0 where it ends early.
fn bits(alloc: Global, width: u32, text: &[u8]) -> Result<Bits, AllocError>
    ensures { IfOk result (λ bits. length bits ≡ width) }
{
    let mut bits = Vec::new(alloc);
    for i in 0..width as usize {
        bits.push(text.get(i) == Some(&b'1'))?;
    }
    Ok(Bits::of(bits))
}

/// The value of a table of so many inputs, at most 128, for some bits.
fn value(alloc: Global, width: u32, on: bool, rows: &[&[u8]], text: &[u8]) -> Result<bool, Fail> {
    if width > 128 {
        return Err("too wide".into());
    }
    let mut table = Vec::new(alloc);
    for marks in rows {
        table.push(row(alloc, width, marks)?)?;
    }
    let cover = Cover::make(alloc, width, on, Sequence::of(table))?;
    Ok(cover.value(&bits(alloc, width, text)?))
}

/// The rows of tables.
const EMPTY: &[&[u8]] = &[b""];

const ONE: &[&[u8]] = &[b"1"];

const ZERO: &[&[u8]] = &[b"0"];

const ANY: &[&[u8]] = &[b"-"];

const SIX: &[&[u8]] = &[b"1----0", b"-01---"];

const LAST_OF_SIX: &[&[u8]] = &[b"-----1"];

const SEVEN: &[&[u8]] = &[b"1-----0", b"-01----"];

/// Rows of 127 and of 128 marks that look at their last input, and at their first and last one.
const LAST_OF_127: &[&[u8]] = &[
    b"------------------------------------------------------------------------------------------------------------------------------1",
];

const ENDS_OF_128: &[&[u8]] = &[
    b"0------------------------------------------------------------------------------------------------------------------------------1",
];

/// Bits of which the last of 127 is 1, and the last of 128.
const BIT_127: &[u8] =
    b"0000000000000000000000000000000000000000000000000000000000000000000000000000000000000000000000000000000000000000000000000000001";

const BIT_128: &[u8] =
    b"00000000000000000000000000000000000000000000000000000000000000000000000000000000000000000000000000000000000000000000000000000001";

/// How many inputs a table has, its rows, some bits, and whether a row matches them.
type TableCase<'a> = (u32, &'a [&'a [u8]], &'a [u8], bool);

const MATCHES: &[TableCase] = &[
    (0, &[], b"", false),
    (0, EMPTY, b"", true),
    (1, &[], b"1", false),
    (1, ONE, b"0", false),
    (1, ONE, b"1", true),
    (1, ZERO, b"0", true),
    (1, ZERO, b"1", false),
    (1, ANY, b"0", true),
    (1, ANY, b"1", true),
    (6, SIX, b"100000", true),
    (6, SIX, b"100001", false),
    (6, SIX, b"001001", true),
    (6, SIX, b"011000", false),
    (6, LAST_OF_SIX, b"000001", true),
    (6, LAST_OF_SIX, b"111110", false),
    (7, SEVEN, b"1000000", true),
    (7, SEVEN, b"1000001", false),
    (7, SEVEN, b"0010001", true),
    (7, SEVEN, b"0110000", false),
    (127, ONE, b"1", true),
    (127, ONE, b"01", false),
    (127, &[], b"1", false),
    (127, ANY, b"", true),
    (127, LAST_OF_127, BIT_127, true),
    (127, LAST_OF_127, b"1", false),
    (128, ONE, b"1", true),
    (128, ONE, b"01", false),
    (128, &[], b"1", false),
    (128, ANY, b"", true),
    (128, ENDS_OF_128, BIT_128, true),
    (128, ENDS_OF_128, BIT_127, false),
    (128, ENDS_OF_128, b"", false),
];

/// Asserts for each line that the table has its value, both where its rows give 1 and where they give 0.
fn have_values(rt: &impl Abort, alloc: Global, lines: &[TableCase]) -> Result<(), Fail> {
    for (width, rows, text, matches) in lines {
        let on = value(alloc, *width, true, rows, text)?;
        let off = value(alloc, *width, false, rows, text)?;
        assert!(rt; on == *matches && off != *matches);
    }
    Ok(())
}

#[test]
fn tables_have_their_values(rt: HostRuntime) -> Result<(), Fail> {
    have_values(&rt, rt.alloc(), MATCHES)
}

/// Whether a latch that reads net 0 and a gate that reads one net make a netlist, with an output that stands so many times.
fn fit(alloc: Global, inputs: u32, net: u32, output: u32, times: usize) -> Result<bool, Fail> {
    let mut cells = Vec::new(alloc);
    cells.push(Cell::Latch {
        d: 0,
        init: Init::One,
    })?;
    cells.push(gate(alloc, &[net])?)?;
    let mut outputs = Vec::with_capacity(alloc, times)?;
    for _ in 0..times {
        outputs.push(output)?;
    }
    let outputs = Sequence::of(outputs);
    Ok(Flat::checked(inputs, Sequence::of(cells), outputs).is_some())
}

/// How many inputs there are, the net that the gate reads, the output, how many times it stands, and whether all fit.
const PARTS: &[(u32, u32, u32, usize, bool)] = &[
    (1, 2, 2, 1, true),
    (4096, 4097, 4097, 4161, true),
    (4097, 0, 0, 1, false),
    (0, 2, 0, 1, false),
    (1, 3, 0, 1, false),
    (1, 0, 3, 1, false),
    (1, 0, 0, 4162, false),
];

/// Asserts whether the parts of each line fit.
fn are_fit(
    rt: &impl Abort,
    alloc: Global,
    lines: &[(u32, u32, u32, usize, bool)],
) -> Result<(), Fail> {
    for (inputs, net, output, times, fits) in lines {
        let found = fit(alloc, *inputs, *net, *output, *times)?;
        assert!(rt; found == *fits);
    }
    Ok(())
}

#[test]
fn netlists_are_made_of_parts_that_fit(rt: HostRuntime) -> Result<(), Fail> {
    are_fit(&rt, rt.alloc(), PARTS)
}

use crate::grading::{graded, graded_text, number_of};
use crate::netlists::{Netlist, Part, gate, made, name, ordered, stimulus};
use crate::plainly::plainly_open;
use std::alloc::{AllocError, Global};
use std::marker::Sync;
use std::process::Abort;
use std::test::Fail;
use std::thread::Threads;
use vw_net::{Cell, Init, Ordered, Rows};
use vw_outside::Name;

/// Asserts that these faults are found with so many workers.
fn are_same(rt: &impl Abort, found: &[u32], wanted: &[u32], workers: u32) {
    assert_eq!(rt; found, wanted, "with {workers} workers");
}

/// Asserts which faults are open, with 1, 2, 8 and 64 workers.
fn are_open<R: Threads + Abort + Sync>(
    rt: &R,
    alloc: Global,
    ordered: &Ordered,
    rows: &[&str],
    wanted: &[u32],
) -> Result<(), Fail> {
    let rows = stimulus(alloc, rows)?;
    for workers in &[1, 2, 8, 64] {
        let found = graded(rt, alloc, ordered, &rows, *workers)?;
        are_same(rt, &found, wanted, *workers);
    }
    Ok(())
}

/// Asserts that the same faults are open as one at a time.
fn are_open_alike<R: Threads + Abort + Sync>(
    rt: &R,
    alloc: Global,
    netlist: &Netlist,
    rows: &[&str],
) -> Result<(), Fail> {
    let wanted = plainly_open(alloc, netlist, rows)?;
    are_open(rt, alloc, &made(alloc, netlist)?, rows, &wanted)
}

/// A latch that is turned round where the input is 1: the input, what the latch takes, and the latch.
const TOGGLE: Netlist = Netlist {
    inputs: 1,
    parts: &[Part::Gate(&[0, 2], &["10", "01"]), Part::Latch(1)],
    outputs: &[2],
};

#[test]
fn a_toggle_that_always_turns_is_open(rt: HostRuntime) -> Result<(), Fail> {
    let alloc = rt.alloc();
    are_open(&rt, alloc, &made(alloc, &TOGGLE)?, &["1", "1", "0"], &[1])
}

#[test]
fn no_row_reveals_anything(rt: HostRuntime) -> Result<(), Fail> {
    let alloc = rt.alloc();
    are_open(&rt, alloc, &made(alloc, &TOGGLE)?, &[], &[0, 1, 2, 3, 4, 5])
}

/// The names of the toggle's nets.
fn toggle_names(alloc: Global) -> Result<Vec<Name>, AllocError> {
    let mut names = Vec::new(alloc);
    for word in &["en", "d", "q"] {
        names.push(name(alloc, word.as_bytes())?)?;
    }
    Ok(names)
}

/// The text of the toggle's grading.
fn toggle_text<R: Threads + Sync>(
    rt: &R,
    alloc: Global,
    rows: &Rows,
    workers: u32,
) -> Result<Vec<u8>, Fail> {
    let ordered = made(alloc, &TOGGLE)?;
    let names = toggle_names(alloc)?;
    graded_text(rt, alloc, &ordered, &names, rows, workers)
}

/// Asserts the text of the toggle's grading, with 1, 2 and 64 workers.
fn is_text<R: Threads + Abort + Sync>(
    rt: &R,
    alloc: Global,
    rows: &[&str],
    wanted: &str,
) -> Result<(), Fail> {
    let rows = stimulus(alloc, rows)?;
    for workers in &[1, 2, 64] {
        let text = toggle_text(rt, alloc, &rows, *workers)?;
        assert!(rt; text.as_slice() == wanted.as_bytes());
    }
    Ok(())
}

#[test]
fn the_text_has_counts_and_open_faults(rt: HostRuntime) -> Result<(), Fail> {
    let alloc = rt.alloc();
    is_text(
        &rt,
        alloc,
        &["1", "1", "0"],
        "grade 1 6 5\nopen en 1\nend\n",
    )?;
    is_text(
        &rt,
        alloc,
        &[],
        "grade 1 6 0\nopen en 0\nopen en 1\nopen d 0\nopen d 1\nopen q 0\nopen q 1\nend\n",
    )
}

#[test]
fn a_net_that_nothing_reads_is_open(rt: HostRuntime) -> Result<(), Fail> {
    // inputs 0 and 1, a gate and a latch that nothing reads, and an output of input 0
    let netlist = Netlist {
        inputs: 2,
        parts: &[Part::Gate(&[0, 1], &["11"]), Part::Latch(0)],
        outputs: &[0],
    };
    let alloc = rt.alloc();
    are_open(
        &rt,
        alloc,
        &made(alloc, &netlist)?,
        &["01", "11", "00"],
        &[2, 3, 4, 5, 6, 7],
    )
}

/// A row of gates, each of which has the value of the one before it, behind one input.
fn chain(alloc: Global, gates: u32) -> Result<Ordered, Fail> {
    let mut cells: Vec<Cell> = Vec::new(alloc);
    for net in 0..gates {
        cells.push(gate(alloc, &[net], &["1"])?)?;
    }
    ordered(alloc, 1, cells, &[gates])
}

/// Each net of a chain, stuck at 1.
fn ones(alloc: Global, nets: u32) -> Result<Vec<u32>, Fail> {
    let mut numbers = Vec::new(alloc);
    for net in 0..nets {
        numbers.push(number_of(net, true))?;
    }
    Ok(numbers)
}

#[test]
fn groups_may_be_of_any_length(rt: HostRuntime) -> Result<(), Fail> {
    let alloc = rt.alloc();
    for gates in &[0, 30, 31, 32, 63, 64] {
        let ordered = chain(alloc, *gates)?;
        // where the chain is 1, it may be stuck there; where it has been 0 too, no fault is hidden
        let wanted = ones(alloc, gates.wrapping_add(1))?;
        are_open(&rt, alloc, &ordered, &["1"], &wanted)?;
        are_open(&rt, alloc, &ordered, &["1", "0"], &[])?;
    }
    Ok(())
}

const NONE: &[u32] = &[];

const SEVEN: &[u32] = &[0, 1, 2, 3, 4, 5, 6];

const WIDE: &[u32] = &[
    0, 1, 2, 3, 4, 5, 6, 7, 0, 1, 2, 3, 4, 5, 6, 7, 0, 1, 2, 3, 4, 5, 6, 7, 0, 1, 2, 3, 4, 5, 6, 7,
    0, 1, 2, 3, 4, 5, 6, 7, 0, 1, 2, 3, 4, 5, 6, 7, 0, 1, 2, 3, 4, 5, 6, 7, 0, 1, 2, 3, 4, 5, 6, 7,
    0, 1, 2, 3, 4, 5, 6, 7, 0, 1, 2, 3, 4, 5, 6, 7, 0, 1, 2, 3, 4, 5, 6, 7, 0, 1, 2, 3, 4, 5, 6, 7,
    0, 1, 2, 3, 4, 5, 6, 7, 0, 1, 2, 3, 4, 5, 6, 7, 0, 1, 2, 3, 4, 5, 6, 7, 0, 1, 2, 3, 4, 5, 6, 7,
];

/// Tables of 0, 1, 2, 3, 4, 5, 6, 7 and 128 inputs behind eight inputs, and latches between them.
const TABLES: Netlist = Netlist {
    inputs: 8,
    parts: &[
        Part::Gate(NONE, &[""]),
        Part::Gate(NONE, &[]),
        Part::Gate(&[0], &["0"]),
        Part::Gate(&[10, 1], &["10", "01"]),
        Part::Gate(&[1, 11, 2], &["11-", "0-1"]),
        Part::Gate(&[3, 12, 5, 11], &["1--0", "-101", "0011"]),
        Part::Gate(&[6, 13, 2, 12, 8], &["1-0-1", "01--1", "--110"]),
        Part::Gate(&[0, 1, 2, 3, 4, 5], &["10-1-0", "0-11-1", "-1-0-0"]),
        Part::Gate(SEVEN, &["1-0-1--", "-01--10", "0-----1"]),
        Part::Gate(
            WIDE,
            &[
                "1---------0----------------------------------------------------1-0-------------------------------------------------------------1",
                "-1----------------------------------------------------------------0---------------------------------1-------------------------1-",
            ],
        ),
        Part::Latch(16),
        Part::Latch(18),
        Part::Gate(&[17, 19, 15], &["110", "0-1", "-01"]),
    ],
    outputs: &[14, 20, 17],
};

#[test]
fn tables_of_each_width_are_graded_as_one_fault_at_a_time(rt: HostRuntime) -> Result<(), Fail> {
    let rows: &[&str] = &[
        "10010110", "01101001", "11100010", "00011101", "10101010", "01010111", "11111111",
        "00000000", "10011001", "01110010", "11001100", "00110011", "10000001", "01000010",
        "00100100", "00011000", "11110000", "00001111", "10110111", "01001000", "11011011",
    ];
    are_open_alike(&rt, rt.alloc(), &TABLES, rows)?;
    are_open_alike(&rt, rt.alloc(), &TABLES, &rows[..3])
}

#[test]
fn a_toggle_that_rests_is_graded_as_one_fault_at_a_time(rt: HostRuntime) -> Result<(), Fail> {
    are_open_alike(&rt, rt.alloc(), &TOGGLE, &["0", "1", "0", "1"])
}

/// So many latches, each of which takes the input of its number, and as outputs all of them and then the first 64 again.
fn latched(alloc: Global, count: u32) -> Result<Ordered, Fail> {
    let mut cells = Vec::new(alloc);
    let mut outputs = Vec::new(alloc);
    for net in 0..count {
        cells.push(Cell::Latch {
            d: net,
            init: Init::Zero,
        })?;
        outputs.push(net.wrapping_add(count))?;
    }
    for net in 0..64u32 {
        outputs.push(net.wrapping_add(count))?;
    }
    ordered(alloc, count, cells, &outputs)
}

/// A row of ones and a row of zeros.
fn ones_and_zeros(alloc: Global, width: usize) -> Result<Rows, AllocError> {
    let mut rows = Rows::new(alloc);
    for bit in &[true, false] {
        rows.push(&vec![in alloc; *bit; width]?)?;
    }
    Ok(rows)
}

/// The open faults of so many latches, over a row of ones and a row of zeros.
fn open_of_latches<R: Threads + Sync>(rt: &R, alloc: Global, count: u32) -> Result<Vec<u32>, Fail> {
    let ordered = latched(alloc, count)?;
    let rows = ones_and_zeros(alloc, count as usize)?;
    graded(rt, alloc, &ordered, &rows, 8)
}

#[test]
fn as_many_inputs_and_outputs_as_there_may_be_are_graded(rt: HostRuntime) -> Result<(), Fail> {
    let found = open_of_latches(&rt, rt.alloc(), 4_096)?;
    // an input that is stuck at 1 would be seen a clock after the row of zeros
    let wanted = ones(rt.alloc(), 4_096)?;
    assert!(rt; found.as_slice() == wanted.as_slice());
    Ok(())
}

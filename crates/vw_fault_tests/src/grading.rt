//! What is graded, as numbers: twice the net, and one more where the bit is 1.
ghost use Rattle.std.specs.Prelude.{◌≡◌, length};
ghost use Rattle.std.specs.Bool.{OnTrue};
ghost use Rattle.std.specs.List.{All};

use std::alloc::{AllocError, Global};
use std::marker::Sync;
use std::test::Fail;
use std::thread::Threads;
use vw_fault::{Open, grade, grading_text};
use vw_net::{Ordered, Rows};
use vw_outside::Name;

/// Whether each row is so wide.
fn are_wide(rows: &Rows, width: usize) -> bool
    ensures { OnTrue result (All (λ row. length row ≡ width) rows.now) }
{
    for place in 0..rows.len() {
        if rows.row(place).len() != width {
            return false;
        }
    }
    true
}

/// The number of a fault.
pub fn number_of(net: u32, bit: bool) -> u32 {
    net.wrapping_mul(2) | bit as u32
}

fn numbers_of(alloc: Global, faults: &[Open]) -> Result<Vec<u32>, AllocError> {
    let mut numbers = Vec::new(alloc);
    for fault in faults {
        numbers.push(number_of(fault.net, fault.bit))?;
    }
    Ok(numbers)
}

/// The open faults of a netlist whose free latches start with 0.
pub fn graded<R: Threads + Sync>(
    rt: &R,
    alloc: Global,
    ordered: &Ordered,
    rows: &Rows,
    workers: u32,
) -> Result<Vec<u32>, Fail> {
    if workers < 1 || workers > 64 {
        return Err("no workers".into());
    }
    let flat = ordered.flat();
    if !are_wide(rows, flat.inputs() as usize) {
        return Err("no rows".into());
    }
    let start = flat.start(alloc, false)?;
    let faults = grade(rt, alloc, ordered, &start, rows, workers)?;
    Ok(numbers_of(alloc, &faults)?)
}

/// The text of a grading, of a netlist whose nets are printed so.
pub fn graded_text<R: Threads + Sync>(
    rt: &R,
    alloc: Global,
    ordered: &Ordered,
    names: &[Name],
    rows: &Rows,
    workers: u32,
) -> Result<Vec<u8>, Fail> {
    if workers < 1 || workers > 64 {
        return Err("no workers".into());
    }
    let flat = ordered.flat();
    if names.len() != flat.inputs() as usize + flat.cells().len() {
        return Err("no names".into());
    }
    if !are_wide(rows, flat.inputs() as usize) {
        return Err("no rows".into());
    }
    let start = flat.start(alloc, false)?;
    Ok(grading_text(rt, alloc, ordered, names, &start, rows, workers)?)
}

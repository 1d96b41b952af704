//! The least microcycle in which each net can have its value, where the pins are counted that bring what it waits for.
ghost use Rattle.std.specs.Prelude.{◌≡◌, ◌≤◌, ◌<◌, ◌+◌, ◌^◌, length, slice_index, IfOk};
ghost use Rattle.vw_bound.specs.Given.{design_in};
ghost use Rattle.vw_short_bound.specs.Steps.Inlets.{AreEmpty, AreInletsOf, AreRows, AreTables, IsGateOf, IsWorkedOut, RowWaits};
ghost use Rattle.vw_short_bound.specs.Steps.Plans.{AreSoonest, IsSoonest};

use crate::inlets::Inlets;
use crate::pressing::pressed_at;
use crate::waits::row_of;
use std::alloc::{AllocError, Global};
use vw_bound::{Placed, last_read};
use vw_net::{Cell, Sequence};

/// No period is longer, so no number needs to be greater.
const LONGEST: u64 = 1 << 62;

/// When the net of a gate can have its value: once all that it reads is there, and all that it waits for has come over
/// the pins.
fn time_of_gate(
    alloc: Global,
    placed: &Placed,
    soon: &[u64],
    number: u32,
    ins: &[u32],
    inlets: &Inlets,
    row: &[u64],
    is_counted: bool,
) -> Result<u64, AllocError>
    requires number { number < length placed.now.ordered.now.flat.cells }
    requires soon { AreSoonest (design_in placed.now) soon.now }
    requires gate { IsGateOf (design_in placed.now) number ins.now }
    requires inlets { AreInletsOf (design_in placed.now)
        (slice_index placed.now.chip_of.now number) inlets.now }
    requires row { RowWaits (design_in placed.now) (slice_index placed.now.chip_of.now number)
        inlets.now.nets row.now ins.now }
    ensures soonest { IfOk result (IsSoonest (design_in placed.now)
        (placed.now.ordered.now.flat.inputs + number)) }
    ensures low { IfOk result (λ time. time ≤ 2 ^ 62) }
{
    let node = placed.chip_of[number as usize];
    let last = last_read(placed, soon, node, ins).min(LONGEST);
    if !is_counted {
        return Ok(last);
    }
    let most = pressed_at(alloc, placed, soon, node, inlets, row)?;
    Ok(last.max(most.min(LONGEST)))
}

/// What a cell's net waits for, and when it can have its value.
fn work_out(
    alloc: Global,
    placed: &Placed,
    tables: &[Inlets],
    soon: &[u64],
    rows: &[Sequence<u64>],
    number: u32,
    is_counted: bool,
) -> Result<(u64, Vec<u64>), AllocError>
    requires number { number < length placed.now.ordered.now.flat.cells }
    requires tables { AreTables (design_in placed.now) tables.now }
    requires soon { AreSoonest (design_in placed.now) soon.now }
    requires rows { AreRows (design_in placed.now) tables.now rows.now }
    ensures { IfOk result (λ both. IsWorkedOut (design_in placed.now) tables.now number both.0 both.1.items) }
{
    let node = placed.chip_of[number as usize];
    let inlets = &tables[node as usize];
    match &placed.ordered.flat().cells()[number as usize] {
        Cell::Gate { ins, .. } => {
            let row = row_of(alloc, placed, tables, rows, node, inlets, ins.as_slice())?;
            let time = time_of_gate(
                alloc,
                placed,
                soon,
                number,
                ins.as_slice(),
                inlets,
                &row,
                is_counted,
            )?;
            Ok((time, row))
        }
        Cell::Latch { .. } => Ok((0, Vec::new(alloc))),
    }
}

/// Rows with no bits, for a number of cells.
fn empty_rows(alloc: Global, count: usize) -> Result<Vec<Sequence<u64>>, AllocError>
    ensures { IfOk result (λ rows. AreEmpty count rows.items) }
{
    let mut rows = Vec::with_capacity(alloc, count)?;
    for _ in 0..count {
        rows.push(Sequence::of(Vec::new(alloc)))?;
    }
    Ok(rows)
}

/// How many inlets are looked at where those of a node are counted, for each class; 0 where they aren't wanted.
fn cost_of(wanted: &[bool], inlets: &Inlets, number: u32) -> u64 {
    match wanted.get(number as usize) {
        Some(true) => {
            let classes = inlets.classes().len() as u64;
            (inlets.nets().len() as u64)
                .saturating_mul(classes.saturating_add(1))
                .saturating_add(1)
        }
        _ => 0,
    }
}

/// The least microcycle in which each net can have its value: one pass over the gates in their order. Pins are counted for
/// the cells that are wanted, as long as no more than this many inlets have been looked at.
pub fn soonest(
    alloc: Global,
    placed: &Placed,
    tables: &[Inlets],
    wanted: &[bool],
    most: u64,
) -> Result<Vec<u64>, AllocError>
    requires { AreTables (design_in placed.now) tables.now }
    ensures { IfOk result (λ soon. AreSoonest (design_in placed.now) soon.items) }
{
    let flat = placed.ordered.flat();
    let inputs = flat.inputs() as usize;
    let mut soon = vec![in alloc; 0; inputs + flat.cells().len()]?;
    let mut rows = empty_rows(alloc, flat.cells().len())?;
    let mut left = most;
    for number in placed.ordered.order() {
        let cost = cost_of(
            wanted,
            &tables[placed.chip_of[*number as usize] as usize],
            *number,
        );
        let is_counted = cost > 0 && cost <= left;
        left = left.saturating_sub(cost);
        let (time, row) = work_out(alloc, placed, tables, &soon, &rows, *number, is_counted)?;
        soon[inputs + *number as usize] = time;
        rows[*number as usize] = Sequence::of(row);
    }
    Ok(soon)
}

//! Which inlets of its node a net waits for.
ghost use Rattle.std.specs.Prelude.{◌≡◌, ◌≤◌, ◌<◌, ◌⊎◌, ℕ, List, [], length, slice_index, slice_index_or, IfOk, IsTrue};
ghost use Rattle.vw_bound.specs.Given.{design_in};
ghost use Rattle.vw_short_bound.specs.Steps.Inlets.{AreRows, ReadWaits, RowWaits, nets_at};
ghost use Rattle.vw_short_bound.specs.Steps.Rows.{has};

use crate::inlets::{Inlets, place_of};
use crate::rows::{add, merge};
use std::alloc::{AllocError, Global};
use vw_bound::{Placed, home};
use vw_net::Sequence;

/// Adds the inlets that the net of a cell waits for.
fn add_own(rows: &[Sequence<u64>], number: u32, row: &mut [u64])
    ensures long { length row.new ≡ length row.old }
    ensures bits { (at : ℕ) → IsTrue (has row.new at)
        → IsTrue (has row.old at) ⊎ IsTrue (has (slice_index_or rows.now number []) at) }
{
    match rows.get(number as usize) {
        Some(other) => merge(row, other.as_slice()),
        None => {}
    }
}

/// Adds the inlet of a net, where it is one.
fn add_brought(inlets: &Inlets, read: u32, row: &mut [u64])
    ensures long { length row.new ≡ length row.old }
    ensures bits { (at : ℕ) → IsTrue (has row.new at)
        → IsTrue (has row.old at) ⊎ (slice_index inlets.now.nets at ≡ read) }
{
    let nets = inlets.nets();
    match place_of(inlets.spots(), read) {
        Some(place) => {
            if place < nets.len() {
                if nets[place] == read {
                    add(row, place);
                }
            }
        }
        None => {}
    }
}

/// Adds the inlets that a net waits for that a gate of a node reads.
fn add_read(
    placed: &Placed,
    tables: &[Inlets],
    rows: &[Sequence<u64>],
    node: u32,
    inlets: &Inlets,
    read: u32,
    row: &mut [u64],
)
    requires rows { AreRows (design_in placed.now) tables.now rows.now }
    requires inlets { inlets.now.nets ≡ nets_at tables.now node }
    ensures long { length row.new ≡ length row.old }
    ensures bits { (at : ℕ) → IsTrue (has row.new at)
        → IsTrue (has row.old at) ⊎ ReadWaits (design_in placed.now) node inlets.now.nets read at }
{
    let _tables = tables;
    if home(placed, read) != node {
        add_brought(inlets, read, row);
        return;
    }
    let inputs = placed.ordered.flat().inputs();
    if inputs <= read {
        add_own(rows, read - inputs, row);
    }
}

/// The inlets that a gate of a node waits for that reads these nets.
pub fn row_of(
    alloc: Global,
    placed: &Placed,
    tables: &[Inlets],
    rows: &[Sequence<u64>],
    node: u32,
    inlets: &Inlets,
    ins: &[u32],
) -> Result<Vec<u64>, AllocError>
    requires rows { AreRows (design_in placed.now) tables.now rows.now }
    requires inlets { inlets.now.nets ≡ nets_at tables.now node }
    ensures { IfOk result (λ row. RowWaits (design_in placed.now) node inlets.now.nets row.items ins.now) }
{
    let mut row = vec![in alloc; 0; inlets.nets().len() / 64 + 1]?;
    for read in ins {
        add_read(placed, tables, rows, node, inlets, *read, &mut row);
    }
    Ok(row)
}

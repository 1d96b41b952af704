//! Cells and netlists of parts that come from anywhere: each rule that they have to keep is tested.
ghost use Rattle.std.specs.Prelude.{◌≡◌, ◌<◌, ◌≤◌, ◌+◌, ◌↔◌, length, IfOk, IfSome, IsSome};
ghost use Rattle.std.specs.Bool.{OnFalse, OnTrue};
ghost use Rattle.std.specs.List.{All};
ghost use Rattle.vw_net.specs.Cells.{IsWellFormed};
ghost use Rattle.vw_net.specs.Parts.{AreParts, AreRows, IsGateOf};

use crate::cell::Cell;
use crate::cover::{Cover, Row};
use crate::flat::Flat;
use crate::limits::{MOST_CELLS, MOST_INPUTS, MOST_OUTPUTS, MOST_TABLE_INPUTS};
use crate::sequence::Sequence;
use std::alloc::{AllocError, Global};
use std::slice;

impl Cell {
    /// The gate that reads these nets, by a table of these rows; nothing where there are more than 128 nets, or where a
    /// row hasn't a mark for each net. It takes memory for each row, and its work grows with the number of rows.
    pub fn gate(
        alloc: Global,
        ins: Sequence<u32>,
        on: bool,
        rows: Sequence<Row>,
    ) -> Result<Option<Self>, AllocError>
        ensures exactly { IfOk result (λ gate. IsSome gate ↔ AreRows (length ins) rows) }
        ensures gate { IfOk result (λ gate. IfSome gate (IsGateOf ins on rows)) }
    {
        let inputs = ins.len();
        if inputs > MOST_TABLE_INPUTS as usize || !are_even(rows.as_slice(), inputs) {
            return Ok(None);
        }
        let cover = Cover::make(alloc, inputs as u32, on, rows)?;
        Ok(Some(Cell::Gate { ins, cover }))
    }
}

/// Whether each row has so many marks.
fn are_even(rows: &[Row], inputs: usize) -> bool
    ensures fits { OnTrue result (All (λ row. length row.marks ≡ inputs) rows.now) }
    ensures fails { OnFalse result (¬ All (λ row. length row.marks ≡ inputs) rows.now) }
{
    for row in rows {
        if row.marks().len() != inputs {
            return false;
        }
    }
    true
}

impl Flat {
    /// The netlist of these parts; nothing where there are more than 4,096 inputs, 65,536 cells or 4,161 outputs, where a
    /// gate reads another number of nets than its table has inputs, or where a cell or an output names a net that there
    /// isn't. It takes no memory, and goes over the parts once.
    pub fn checked(inputs: u32, cells: Sequence<Cell>, outputs: Sequence<u32>) -> Option<Self>
        ensures exactly { IsSome result ↔ AreParts inputs cells outputs }
        ensures inputs { IfSome result (λ flat. flat.inputs ≡ inputs) }
        ensures cells { IfSome result (λ flat. flat.cells ≡ cells) }
        ensures outputs { IfSome result (λ flat. flat.outputs ≡ outputs) }
    {
        if !is_small(inputs, cells.len(), outputs.len()) {
            return None;
        }
        let nets = inputs + cells.len() as u32;
        if !are_well_formed(cells.as_slice(), nets) || !are_nets(outputs.as_slice(), nets) {
            return None;
        }
        Some(Flat::make(inputs, cells, outputs))
    }
}

/// Whether a netlist may have so many inputs, cells and outputs.
fn is_small(inputs: u32, cells: usize, outputs: usize) -> bool
    ensures fits { OnTrue result ((inputs ≤ MOST_INPUTS) × (cells ≤ MOST_CELLS)
        × (outputs ≤ MOST_OUTPUTS)) }
    ensures fails { OnFalse result (¬ ((inputs ≤ MOST_INPUTS) × (cells ≤ MOST_CELLS)
        × (outputs ≤ MOST_OUTPUTS))) }
{
    inputs <= MOST_INPUTS && cells <= MOST_CELLS as usize && outputs <= MOST_OUTPUTS as usize
}

/// Whether each of these cells is well formed among so many nets.
fn are_well_formed(cells: &[Cell], nets: u32) -> bool
    ensures fits { OnTrue result (All (IsWellFormed nets) cells.now) }
    ensures fails { OnFalse result (¬ All (IsWellFormed nets) cells.now) }
{
    for cell in cells {
        if !is_well_formed(cell, nets) {
            return false;
        }
    }
    true
}

/// Whether a cell reads as many nets as it has to, each of them one of so many.
fn is_well_formed(cell: &Cell, nets: u32) -> bool
    ensures fits { OnTrue result (IsWellFormed nets cell.now) }
    ensures fails { OnFalse result (¬ IsWellFormed nets cell.now) }
{
    match cell {
        Cell::Gate { ins, cover } => {
            ins.len() == cover.inputs() as usize && are_nets(ins.as_slice(), nets)
        }
        Cell::Latch { d, .. } => are_nets(slice::from_ref(d), nets),
    }
}

/// Whether each of these numbers is that of a net, where there are so many.
fn are_nets(numbers: &[u32], nets: u32) -> bool
    ensures fits { OnTrue result (All (λ net. net < nets) numbers.now) }
    ensures fails { OnFalse result (¬ All (λ net. net < nets) numbers.now) }
{
    for number in numbers {
        if *number >= nets {
            return false;
        }
    }
    true
}

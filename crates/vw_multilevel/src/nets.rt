//! The nets of a netlist over its cells.
use crate::level::Level;
use crate::rows::NumberRows;
use std::alloc::{AllocError, Global};
use vw_net::{Cell, Flat};

/// The nets of each cell, as rows: its own, and those that it reads.
fn nets_of_cells(alloc: Global, flat: &Flat) -> Result<NumberRows, AllocError> {
    let mut rows = NumberRows::new(alloc)?;
    let mut own = flat.inputs();
    for cell in flat.cells() {
        rows.push(own)?;
        match cell {
            Cell::Gate { ins, .. } => rows.push_all(ins.as_slice())?,
            Cell::Latch { d, .. } => rows.push(*d)?,
        }
        rows.end_row()?;
        own = own.saturating_add(1);
    }
    Ok(rows)
}

/// The cells of each net: the one that drives it and those that read it.
pub fn cells_of_nets(alloc: Global, flat: &Flat) -> Result<NumberRows, AllocError> {
    let of_cell = nets_of_cells(alloc, flat)?;
    let nets = flat.inputs().saturating_add(of_cell.len());
    of_cell.transposed(alloc, nets)
}

/// The level at which each vertex is a cell of a netlist, with these nets.
pub fn level_of(alloc: Global, flat: &Flat, of_net: &NumberRows) -> Result<Level, AllocError> {
    let cells = u32::try_from(flat.cells().len()).unwrap_or(u32::MAX);
    Level::of_nets(alloc, of_net, cells)
}

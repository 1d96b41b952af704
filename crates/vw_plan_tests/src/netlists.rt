//! Netlists of a few cells, for tests.
use std::alloc::{AllocError, Global};
use std::test::Fail;
use vw_net::{Cell, Flat, Init, Ordered, Sequence};
use vw_order::order;

/// A gate that reads these nets. Its value is always zero.
pub fn gate(alloc: Global, ins: &[u32]) -> Result<Cell, Fail> {
    let ins = Sequence::of(ins.to_vec(alloc)?);
    match Cell::gate(alloc, ins, true, Sequence::of(Vec::new(alloc)))? {
        Some(cell) => Ok(cell),
        None => Err("no gate".into()),
    }
}

/// A latch that reads this net.
pub fn latch(d: u32) -> Cell {
    Cell::Latch {
        d,
        init: Init::Zero,
    }
}

/// A cell of a test.
#[derive(Clone, Copy)]
pub enum Part<'a> {
    /// A gate that reads these nets. Its value is always zero.
    Gate(&'a [u32]),
    /// A latch that reads this net.
    Latch(u32),
}

/// A netlist of a test: so many inputs, its cells in order, and its outputs.
#[derive(Clone, Copy)]
pub struct Netlist<'a> {
    pub inputs: u32,
    pub parts: &'a [Part<'a>],
    pub outputs: &'a [u32],
}

/// The cells of these parts.
pub fn cells_of(alloc: Global, parts: &[Part]) -> Result<Vec<Cell>, Fail> {
    let mut cells = Vec::new(alloc);
    for part in parts {
        let cell = match part {
            Part::Gate(ins) => gate(alloc, ins)?,
            Part::Latch(d) => latch(*d),
        };
        cells.push(cell)?;
    }
    Ok(cells)
}

/// The netlist of these cells in order, behind so many inputs and with these outputs.
pub fn ordered(
    alloc: Global,
    inputs: u32,
    cells: Vec<Cell>,
    outputs: &[u32],
) -> Result<Ordered, Fail> {
    let outputs = Sequence::of(outputs.to_vec(alloc)?);
    let flat = Flat::checked(inputs, Sequence::of(cells), outputs).ok_or("no netlist")?;
    Ok(order(alloc, flat).ok().ok_or("no order")?)
}

/// That netlist, with its order.
pub fn made(alloc: Global, netlist: &Netlist) -> Result<Ordered, Fail> {
    let cells = cells_of(alloc, netlist.parts)?;
    ordered(alloc, netlist.inputs, cells, netlist.outputs)
}

/// So many latches, each of which reads net 0.
fn latches(alloc: Global, count: u32) -> Result<Vec<Cell>, AllocError> {
    let mut cells = Vec::new(alloc);
    for _ in 0..count {
        cells.push(latch(0))?;
    }
    Ok(cells)
}

/// The netlist of one input, of so many latches that read it, and of these outputs.
pub fn of_latches(alloc: Global, count: u32, outputs: &[u32]) -> Result<Ordered, Fail> {
    let cells = latches(alloc, count)?;
    ordered(alloc, 1, cells, outputs)
}

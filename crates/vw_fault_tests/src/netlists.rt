//! Netlists of tests.
use std::alloc::{AllocError, Global};
use std::test::Fail;
use vw_net::{Cell, Flat, Init, Mark, Ordered, Row, Rows, Sequence};
use vw_order::order;
use vw_outside::Name;

/// A cell of a test.
#[derive(Clone, Copy)]
pub enum Part<'a> {
    /// A gate that reads these nets, with rows of the characters `0`, `1` and `-`: it is 1 where one of them matches.
    Gate(&'a [u32], &'a [&'a str]),
    /// A latch that reads this net and starts with 0.
    Latch(u32),
}

/// So many inputs, the cells, each gate behind those that it reads, and the outputs.
#[derive(Clone, Copy)]
pub struct Netlist<'a> {
    pub inputs: u32,
    pub parts: &'a [Part<'a>],
    pub outputs: &'a [u32],
}

fn mark_of(sign: u8) -> Mark {
    match sign {
        b'0' => Mark::Zero,
        b'1' => Mark::One,
        _ => Mark::Any,
    }
}

fn row_of(alloc: Global, signs: &str) -> Result<Row, AllocError> {
    let mut marks = Vec::new(alloc);
    for sign in signs.as_bytes() {
        marks.push(mark_of(*sign))?;
    }
    Ok(Row::make(Sequence::of(marks)))
}

fn rows_of(alloc: Global, rows: &[&str]) -> Result<Sequence<Row>, AllocError> {
    let mut list = Vec::new(alloc);
    for row in rows {
        list.push(row_of(alloc, row)?)?;
    }
    Ok(Sequence::of(list))
}

/// A gate that reads these nets.
pub fn gate(alloc: Global, ins: &[u32], rows: &[&str]) -> Result<Cell, Fail> {
    let ins = Sequence::of(ins.to_vec(alloc)?);
    let rows = rows_of(alloc, rows)?;
    match Cell::gate(alloc, ins, true, rows)? {
        Some(cell) => Ok(cell),
        None => Err("no gate".into()),
    }
}

fn cells_of(alloc: Global, parts: &[Part]) -> Result<Vec<Cell>, Fail> {
    let mut cells = Vec::new(alloc);
    for part in parts {
        let cell = match part {
            Part::Gate(ins, rows) => gate(alloc, ins, rows)?,
            Part::Latch(d) => Cell::Latch {
                d: *d,
                init: Init::Zero,
            },
        };
        cells.push(cell)?;
    }
    Ok(cells)
}

/// The netlist of these cells, with an order.
pub fn ordered(
    alloc: Global,
    inputs: u32,
    cells: Vec<Cell>,
    outputs: &[u32],
) -> Result<Ordered, Fail> {
    let outputs = Sequence::of(outputs.to_vec(alloc)?);
    let flat = Flat::checked(inputs, Sequence::of(cells), outputs).ok_or("no netlist")?;
    Ok(order(alloc, flat).ok().ok_or("no order")?)
}

/// A netlist of a test, with an order.
pub fn made(alloc: Global, netlist: &Netlist) -> Result<Ordered, Fail> {
    let cells = cells_of(alloc, netlist.parts)?;
    ordered(alloc, netlist.inputs, cells, netlist.outputs)
}

fn bits_of(alloc: Global, signs: &str) -> Result<Vec<bool>, AllocError> {
    let mut bits = Vec::new(alloc);
    for sign in signs.as_bytes() {
        bits.push(*sign == b'1')?;
    }
    Ok(bits)
}

/// The rows that are written so.
pub fn stimulus(alloc: Global, rows: &[&str]) -> Result<Rows, AllocError> {
    let mut list = Rows::new(alloc);
    for row in rows {
        list.push(&bits_of(alloc, row)?)?;
    }
    Ok(list)
}

/// A name with these bytes.
pub fn name(alloc: Global, bytes: &[u8]) -> Result<Name, AllocError> {
    Ok(Name::of(bytes.to_vec(alloc)?))
}

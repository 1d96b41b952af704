//! Nets that may reach an output. Faults of the others are open without a run.
ghost use Rattle.std.specs.Prelude.{◌≡◌, true, length, replicate, slice_index_or, IfOk};
ghost use Rattle.std.specs.Bool.{OnTrue};
ghost use Rattle.std.specs.List.{All};
ghost use Rattle.vw_net.specs.Cells.{read_nets};
ghost use Rattle.vw_fault.specs.Reached.{IsClosedByReading};
ghost use Rattle.vw_fault.specs.Steps.Reaching.{is_marked};

use std::alloc::{AllocError, Global};
use std::slice;
use vw_net::{Cell, Flat};

/// A mark for each net that may reach an output, over gates and latches. It takes 5 bytes a net, and looks at each cell twice.
pub fn reached_nets(alloc: Global, flat: &Flat) -> Result<Vec<bool>, AllocError>
    ensures { IfOk result (λ marks. IsClosedByReading flat.now (is_marked marks.items)) }
{
    let nets = flat.inputs() as usize + flat.cells().len();
    let marks = spread_back(alloc, flat, nets)?;
    if is_closed(flat, &marks) {
        return Ok(marks);
    }
    // never so: a spread ends with marks that are closed, but that isn't asked of it
    vec![in alloc; true; nets]
}

/// Whether a net has a mark; a net that there isn't counts as marked.
pub fn is_marked(marks: &[bool], net: u32) -> bool
    ensures { result ≡ is_marked marks.now net }
{
    match marks.get(net as usize) {
        Some(mark) => *mark,
        None => true,
    }
}

/// Whether each output is marked, and with the net of a cell each net that the cell reads.
fn is_closed(flat: &Flat, marks: &[bool]) -> bool
    ensures { OnTrue result (IsClosedByReading flat.now (is_marked marks.now)) }
{
    if !are_marked(marks, flat.outputs()) {
        return false;
    }
    let first = flat.inputs();
    for (number, cell) in flat.cells().iter().enumerate() {
        if !is_cell_closed(marks, first + number as u32, cell) {
            return false;
        }
    }
    true
}

/// Whether each net that a cell reads is marked, where its own net is.
fn is_cell_closed(marks: &[bool], net: u32, cell: &Cell) -> bool
    ensures { OnTrue result (is_marked marks.now net ≡ true
        → All (λ read. is_marked marks.now read ≡ true) (read_nets cell.now)) }
{
    !is_marked(marks, net) || reads_marked(marks, cell)
}

/// Whether each of these nets is marked.
fn are_marked(marks: &[bool], nets: &[u32]) -> bool
    ensures { OnTrue result (All (λ net. is_marked marks.now net ≡ true) nets.now) }
{
    for net in nets {
        if !is_marked(marks, *net) {
            return false;
        }
    }
    true
}

/// Whether each net that a cell reads is marked.
fn reads_marked(marks: &[bool], cell: &Cell) -> bool
    ensures { OnTrue result (All (λ net. is_marked marks.now net ≡ true) (read_nets cell.now)) }
{
    match cell {
        Cell::Gate { ins, .. } => are_marked(marks, ins.as_slice()),
        Cell::Latch { d, .. } => are_marked(marks, slice::from_ref(d)),
    }
}

/// Marks the outputs, and what the cell of a marked net reads. Each net is looked at once.
fn spread_back(alloc: Global, flat: &Flat, nets: usize) -> Result<Vec<bool>, AllocError> {
    let mut marks = vec![in alloc; false; nets]?;
    let mut waiting = Vec::new(alloc);
    mark_all(flat.outputs(), &mut marks, &mut waiting)?;
    for _ in 0..nets {
        let Some(net) = waiting.pop() else {
            break;
        };
        mark_reads(flat, net, &mut marks, &mut waiting)?;
    }
    Ok(marks)
}

/// Marks what the cell of a net reads.
fn mark_reads(
    flat: &Flat,
    net: u32,
    marks: &mut [bool],
    waiting: &mut Vec<u32>,
) -> Result<(), AllocError> {
    let Some(number) = net.checked_sub(flat.inputs()) else {
        return Ok(());
    };
    match flat.cells().get(number as usize) {
        Some(Cell::Gate { ins, .. }) => mark_all(ins.as_slice(), marks, waiting),
        Some(Cell::Latch { d, .. }) => mark_all(slice::from_ref(d), marks, waiting),
        None => Ok(()),
    }
}

/// Marks nets. Those that had no mark are to be looked at.
fn mark_all(nets: &[u32], marks: &mut [bool], waiting: &mut Vec<u32>) -> Result<(), AllocError> {
    for net in nets {
        if let Some(mark) = marks.get_mut(*net as usize) {
            if !*mark {
                *mark = true;
                waiting.push(*net)?;
            }
        }
    }
    Ok(())
}

//! The lines of columns, cells and outputs.
ghost use Rattle.std.specs.Prelude.{◌≡◌, ◌<◌, ◌≤◌, ◌+◌, ◌++◌, ◌∷◌, [], length, OnOk, slice_index_or};
ghost use Rattle.vw_net.specs.declared.limits.TheConstants.{MOST_INPUTS, MOST_CELLS};
ghost use Rattle.vw_text.specs.Physical.{lines_text};
ghost use Rattle.vw_listing.specs.Netlist.{cell_line, cell_lines, column_line, column_lines, output_line, output_lines};

use crate::words::{push_net, push_numbers};
use std::alloc::AllocError;
use vw_net::Cell;
use vw_outside::Name;

/// Appends the line of a column.
fn push_column(text: &mut Vec<u8>, net: u32, name: &Name) -> Result<(), AllocError>
    ensures { OnOk result (text.new.items ≡ text.old.items ++ (column_line net name.now ++ 10 ∷ [])) }
{
    push_net(text, b"column", net, name.as_slice())?;
    text.push(b'\n')?;
    Ok(())
}

/// Appends the lines of the columns with these names, at most 4,096.
pub fn push_columns(text: &mut Vec<u8>, names: &[Name]) -> Result<(), AllocError>
    requires { length names.now ≤ MOST_INPUTS }
    ensures { OnOk result (text.new.items ≡ text.old.items ++ lines_text (column_lines names.now)) }
{
    for (net, name) in names.iter().enumerate() {
        push_column(text, net as u32, name)?;
    }
    Ok(())
}

/// Appends the line of a cell, which drives this net.
fn push_cell(text: &mut Vec<u8>, net: u32, name: &Name, cell: &Cell) -> Result<(), AllocError>
    ensures { OnOk result (text.new.items
        ≡ text.old.items ++ (cell_line net name.now cell.now ++ 10 ∷ [])) }
{
    match cell {
        Cell::Gate { ins, .. } => {
            push_net(text, b"gate", net, name.as_slice())?;
            push_numbers(text, ins.as_slice())?;
        }
        Cell::Latch { d, .. } => {
            push_net(text, b"latch", net, name.as_slice())?;
            push_numbers(text, &[*d])?;
        }
    }
    text.push(b'\n')?;
    Ok(())
}

/// Appends the lines of cells, of which the first drives this net and each other one the next. The names are those of all nets.
pub fn push_cells(
    text: &mut Vec<u8>,
    names: &[Name],
    first: u32,
    cells: &[Cell],
) -> Result<(), AllocError>
    requires columns { first ≤ MOST_INPUTS }
    requires cells { length cells.now ≤ MOST_CELLS }
    requires names { length names.now ≡ first + length cells.now }
    ensures { OnOk result (text.new.items
        ≡ text.old.items ++ lines_text (cell_lines names.now first cells.now)) }
{
    for (place, cell) in cells.iter().enumerate() {
        let net = first + place as u32;
        push_cell(text, net, &names[net as usize], cell)?;
    }
    Ok(())
}

/// Appends the line of an output.
fn push_output(text: &mut Vec<u8>, net: u32, name: &Name) -> Result<(), AllocError>
    ensures { OnOk result (text.new.items ≡ text.old.items ++ (output_line net name.now ++ 10 ∷ [])) }
{
    push_net(text, b"output", net, name.as_slice())?;
    text.push(b'\n')?;
    Ok(())
}

/// The name of the output at a place: first come those of the root, then the probes.
fn output_name<'n>(root: &'n [Name], probes: &'n [Name], place: usize) -> &'n Name
    requires { place < length root.now + length probes.now }
    ensures { result.now ≡ slice_index_or (root.now ++ probes.now) place [] }
{
    if place < root.len() {
        return &root[place];
    }
    &probes[place - root.len()]
}

/// Appends the lines of the outputs with these nets, of which the last ones are probes.
pub fn push_outputs(
    text: &mut Vec<u8>,
    root: &[Name],
    probes: &[Name],
    nets: &[u32],
) -> Result<(), AllocError>
    requires { length root.now + length probes.now ≡ length nets.now }
    ensures { OnOk result (text.new.items
        ≡ text.old.items ++ lines_text (output_lines (root.now ++ probes.now) nets.now)) }
{
    for (place, net) in nets.iter().enumerate() {
        push_output(text, *net, output_name(root, probes, place))?;
    }
    Ok(())
}

//! Generated designs.
ghost use Rattle.std.specs.Prelude.{◌≡◌, ◌≤◌, ◌<◌, ◌+◌, ◌++◌, ◌∷◌, [], IfOk, OnOk};
ghost use Rattle.std.specs.List.{flat_map, range_with_len};
ghost use Rattle.vw_text.specs.Physical.{lines_text};
ghost use Rattle.vw_gen.specs.Draws.{drawn_state};
ghost use Rattle.vw_gen.specs.Design.{outputs_line, names_line, gate_rows, gate_lines, latch_line, draws_before, cell_lines, design_text};

use crate::draws::Draws;
use crate::words::push_net;
use std::alloc::{AllocError, Global};
use vw_text::push_number;

/// Appends the line of the outputs.
fn push_outputs(text: &mut Vec<u8>, cells: u32) -> Result<(), AllocError>
    requires { cells ≤ 20000 }
    ensures { OnOk result (text.new.items ≡ text.old.items ++ (outputs_line cells ++ 10 ∷ [])) }
{
    text.extend_from_slice(b".outputs")?;
    for cell in cells - cells.min(8)..cells {
        text.push(b' ')?;
        push_net(text, 8 + cell)?;
    }
    text.push(b'\n')?;
    Ok(())
}

/// Appends the line of a gate with these inputs.
fn push_names(text: &mut Vec<u8>, first: u32, second: u32, cell: u32) -> Result<(), AllocError>
    requires { cell < 20000 }
    ensures { OnOk result (text.new.items
        ≡ text.old.items ++ (names_line first second cell ++ 10 ∷ [])) }
{
    text.extend_from_slice(b".names ")?;
    push_net(text, first)?;
    text.push(b' ')?;
    push_net(text, second)?;
    text.push(b' ')?;
    push_net(text, 8 + cell)?;
    text.push(b'\n')?;
    Ok(())
}

/// The rows of a gate of this kind.
fn rows_of(kind: u32) -> &'static [u8]
    ensures { result.now ≡ lines_text (gate_rows kind) }
{
    match kind {
        0 => b"11 1\n",
        1 => b"1- 1\n-1 1\n",
        2 => b"10 1\n01 1\n",
        _ => b"11 0\n",
    }
}

/// Appends the lines of a gate.
fn push_gate(text: &mut Vec<u8>, draws: &mut Draws, cell: u32) -> Result<(), AllocError>
    requires { cell < 20000 }
    ensures text { OnOk result (text.new.items
        ≡ text.old.items ++ lines_text (gate_lines draws.old 0 cell)) }
    ensures draws { OnOk result (draws.new ≡ drawn_state draws.old 3) }
{
    let nearest = 7 + cell;
    let nets = (8 + cell).min(64);
    let first = nearest - draws.draw(nets);
    let second = nearest - draws.draw(nets);
    let kind = draws.draw(4);
    push_names(text, first, second, cell)?;
    text.extend_from_slice(rows_of(kind))?;
    Ok(())
}

/// Appends the line of a latch.
fn push_latch(
    text: &mut Vec<u8>,
    draws: &mut Draws,
    cells: u32,
    cell: u32,
) -> Result<(), AllocError>
    requires few { cells ≤ 20000 }
    requires cell { cell < cells }
    ensures text { OnOk result (text.new.items
        ≡ text.old.items ++ (latch_line draws.old 0 cells cell ++ 10 ∷ [])) }
    ensures draws { OnOk result (draws.new ≡ drawn_state draws.old 2) }
{
    let input = draws.draw(8 + cells);
    let initial = draws.draw(2);
    text.extend_from_slice(b".latch ")?;
    push_net(text, input)?;
    text.push(b' ')?;
    push_net(text, 8 + cell)?;
    text.push(b' ')?;
    push_number(text, initial)?;
    text.push(b'\n')?;
    Ok(())
}

/// Appends the lines of a cell, with the draws that it takes.
fn push_cell(text: &mut Vec<u8>, draws: &mut Draws, cells: u32, cell: u32) -> Result<(), AllocError>
    requires few { cells ≤ 20000 }
    requires cell { cell < cells }
    requires draws { draws.old ≡ drawn_state cells (draws_before cell) }
    ensures text { OnOk result (text.new.items
        ≡ text.old.items ++ lines_text (cell_lines cells cell)) }
    ensures draws { OnOk result (draws.new ≡ drawn_state cells (draws_before (cell + 1))) }
{
    if cell % 4 == 3 {
        push_latch(text, draws, cells, cell)
    } else {
        push_gate(text, draws, cell)
    }
}

/// Appends the lines of all cells.
fn push_cells(text: &mut Vec<u8>, cells: u32) -> Result<(), AllocError>
    requires { cells ≤ 20000 }
    ensures { OnOk result (text.new.items
        ≡ text.old.items ++ lines_text (flat_map (cell_lines cells) (range_with_len 0 cells))) }
{
    let mut draws = Draws::start(cells);
    for cell in 0..cells {
        push_cell(text, &mut draws, cells, cell)?;
    }
    Ok(())
}

/// The text of a design of `n` cells, with 8 inputs and at most 8 outputs: gates with two inputs, and every fourth cell
/// a latch. Every number has one such text. It takes memory for the text, and nothing but want of memory is an error.
pub fn design(alloc: Global, n: u32) -> Result<Vec<u8>, AllocError>
    requires some { 1 ≤ n }
    requires few { n ≤ 20000 }
    ensures { IfOk result (λ text. text.items ≡ design_text n) }
{
    let mut text = Vec::new(alloc);
    text.extend_from_slice(b".model demo\n.inputs i0 i1 i2 i3 i4 i5 i6 i7\n")?;
    push_outputs(&mut text, n)?;
    push_cells(&mut text, n)?;
    text.extend_from_slice(b".end\n")?;
    Ok(text)
}

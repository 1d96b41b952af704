//! The rows of tables, and the lines that many items have.
ghost use Rattle.std.specs.Prelude.{◌≡◌, ◌<◌, ◌++◌, ◌∷◌, [], length, replicate, OnOk};
ghost use Rattle.vw_net.specs.declared.cover.Mark.TheVariants.{Any};
ghost use Rattle.vw_text.specs.Physical.{lines_text};
ghost use Rattle.vw_blif.specs.Printed.{init_word, mark_byte};
ghost use Rattle.vw_emit_text.specs.Numbered.{emitting};
ghost use Rattle.vw_text.specs.Printed.{with_newline};
ghost use Rattle.vw_emit_text.specs.Steps.{cover_lines, marks_text, off_lines, row_line, row_lines, row_marks};

use std::alloc::AllocError;
use vw_net::{Cover, Init, Mark};

fn mark_byte(mark: Mark) -> u8
    ensures { result ≡ mark_byte mark }
{
    match mark {
        Mark::Zero => b'0',
        Mark::One => b'1',
        Mark::Any => b'-',
    }
}

/// Appends the marks of a row, by its number.
fn push_marks(text: &mut Vec<u8>, cover: &Cover, row: u64) -> Result<(), AllocError>
    requires { row < length cover.now.rows }
    ensures { OnOk result (text.new.items
        ≡ text.old.items ++ marks_text (row_marks cover.now row)) }
{
    for input in 0..cover.inputs() {
        text.push(mark_byte(cover.mark(row, input)))?;
    }
    Ok(())
}

/// Appends the line of a row with its value.
fn push_row(text: &mut Vec<u8>, cover: &Cover, row: u64, value: u8) -> Result<(), AllocError>
    requires { row < length cover.now.rows }
    ensures { OnOk result (text.new.items
        ≡ text.old.items ++ with_newline (row_line (row_marks cover.now row) (value ∷ []))) }
{
    push_marks(text, cover, row)?;
    if cover.inputs() > 0 {
        text.push(b' ')?;
    }
    text.push(value)?;
    text.push(b'\n')?;
    Ok(())
}

/// Appends the lines of the rows of a table with their value.
fn push_rows(text: &mut Vec<u8>, cover: &Cover, value: u8) -> Result<(), AllocError>
    ensures { OnOk result (text.new.items
        ≡ text.old.items ++ lines_text (row_lines cover.now.rows (value ∷ []))) }
{
    for row in 0..cover.count() {
        push_row(text, cover, row, value)?;
    }
    Ok(())
}

/// Appends marks that any value matches.
fn push_any(text: &mut Vec<u8>, inputs: u32) -> Result<(), AllocError>
    ensures { OnOk result (text.new.items ≡ text.old.items ++ marks_text (replicate inputs Any)) }
{
    for input in 0..inputs {
        text.push(b'-')?;
    }
    Ok(())
}

/// Appends the line of the row that any inputs match, with the value 1.
fn push_always(text: &mut Vec<u8>, inputs: u32) -> Result<(), AllocError>
    ensures { OnOk result (text.new.items ≡ text.old.items ++ lines_text (off_lines inputs [])) }
{
    if inputs == 0 {
        text.extend_from_slice(b"1\n")?;
        return Ok(());
    }
    push_any(text, inputs)?;
    text.extend_from_slice(b" 1\n")?;
    Ok(())
}

/// Appends the rows of a table.
pub(crate) fn push_cover(text: &mut Vec<u8>, cover: &Cover) -> Result<(), AllocError>
    ensures { OnOk result (text.new.items ≡ text.old.items ++ lines_text (cover_lines cover.now)) }
{
    if cover.on() {
        return push_rows(text, cover, b'1');
    }
    if cover.count() == 0 {
        return push_always(text, cover.inputs());
    }
    push_rows(text, cover, b'0')
}

/// What a register starts at.
pub(crate) fn start_word(init: Init) -> &'static [u8]
    ensures { result.now ≡ init_word emitting init }
{
    match init {
        Init::Zero => b"0",
        Init::One => b"1",
        Init::Free => b"2",
    }
}

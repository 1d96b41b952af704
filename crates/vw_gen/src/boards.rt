//! Generated boards.
ghost use Rattle.std.specs.Prelude.{◌≡◌, ◌≤◌, ◌<◌, ◌++◌, ◌∷◌, [], IfOk, OnOk};
ghost use Rattle.std.specs.List.{flat_map, range_with_len};
ghost use Rattle.vw_text.specs.Physical.{lines_text};
ghost use Rattle.vw_gen.specs.Board.{link_line, both_ways, chip_links, row_links, board_text};

use std::alloc::{AllocError, Global};
use vw_text::push_number;

/// Appends the line of a link.
fn push_link(text: &mut Vec<u8>, from: u32, to: u32) -> Result<(), AllocError>
    ensures { OnOk result (text.new.items ≡ text.old.items ++ (link_line from to ++ 10 ∷ [])) }
{
    text.extend_from_slice(b"link ")?;
    push_number(text, from)?;
    text.push(b' ')?;
    push_number(text, to)?;
    text.extend_from_slice(b" 2\n")?;
    Ok(())
}

/// Appends the lines of the link between two nodes and of the link back.
fn push_both(text: &mut Vec<u8>, one: u32, other: u32) -> Result<(), AllocError>
    ensures { OnOk result (text.new.items ≡ text.old.items ++ lines_text (both_ways one other)) }
{
    push_link(text, one, other)?;
    push_link(text, other, one)
}

/// Appends the lines of the links between a chip and the ones to its right and below it.
fn push_chip(text: &mut Vec<u8>, row: u32, column: u32) -> Result<(), AllocError>
    requires row { row < 4 }
    requires column { column < 4 }
    ensures { OnOk result (text.new.items ≡ text.old.items ++ lines_text (chip_links row column)) }
{
    let chip = 4 * row + column + 1;
    if column < 3 {
        push_both(text, chip, chip + 1)?;
    }
    if row < 3 {
        push_both(text, chip, chip + 4)?;
    }
    Ok(())
}

/// Appends the lines of the links of the chips of a row.
fn push_row(text: &mut Vec<u8>, row: u32) -> Result<(), AllocError>
    requires { row < 4 }
    ensures { OnOk result (text.new.items ≡ text.old.items ++ lines_text (row_links row)) }
{
    for column in 0..4 {
        push_chip(text, row, column)?;
    }
    Ok(())
}

/// Appends the lines of the links between chips.
fn push_rows(text: &mut Vec<u8>) -> Result<(), AllocError>
    ensures { OnOk result (text.new.items
        ≡ text.old.items ++ lines_text (flat_map row_links (range_with_len 0 4))) }
{
    for row in 0..4 {
        push_row(text, row)?;
    }
    Ok(())
}

/// Appends the lines of the links between the host and these chips.
fn push_host(text: &mut Vec<u8>, chips: &[u32]) -> Result<(), AllocError>
    ensures { OnOk result (text.new.items
        ≡ text.old.items ++ lines_text (flat_map (both_ways 0) chips.now)) }
{
    for chip in chips {
        push_both(text, 0, *chip)?;
    }
    Ok(())
}

/// The text of a board for the design of `n` cells: 16 chips in four rows of four, each with links of two pins to the chips
/// next to it, and the chips in the corners with links to the host. It takes memory for the text, and nothing but want of
/// memory is an error.
pub fn board(alloc: Global, n: u32) -> Result<Vec<u8>, AllocError>
    requires some { 1 ≤ n }
    requires few { n ≤ 20000 }
    ensures { IfOk result (λ text. text.items ≡ board_text n) }
{
    let mut text = Vec::new(alloc);
    text.extend_from_slice(b"board 1\nchips 16\ncells ")?;
    push_number(&mut text, n / 12 + 1)?;
    text.extend_from_slice(b"\nsettle 1\npins 16\n")?;
    push_rows(&mut text)?;
    push_host(&mut text, &[1, 4, 13, 16])?;
    Ok(text)
}

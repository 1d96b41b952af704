//! Texts of generated designs, of 1 to 500 cells.
use std::alloc::Global;
use std::test::Fail;
use vw_gen::{design, stimulus};

/// The generated design of so many cells, and its 300 rows.
pub fn demonstrated(alloc: Global, cells: u32) -> Result<(String, String), Fail> {
    let cells = cells.max(1).min(500);
    let design = String::from_utf8(design(alloc, cells)?)
        .ok()
        .ok_or("no text")?;
    let rows = String::from_utf8(stimulus(alloc, cells)?)
        .ok()
        .ok_or("no text")?;
    Ok((design, rows))
}

//! Jobs of a few clocks.
ghost use Rattle.std.specs.Prelude.{◌≡◌, length};
ghost use Rattle.std.specs.Bool.{OnTrue};
ghost use Rattle.std.specs.List.{All};

use crate::boards::{Texts, planned};
use std::alloc::{AllocError, Global};
use std::test::Fail;
use vw_net::Rows;
use vw_prog::Job;

/// Rows of these bits.
fn rows_of(alloc: Global, lines: &[&[bool]]) -> Result<Rows, AllocError> {
    let mut rows = Rows::new(alloc);
    for line in lines {
        rows.push(line)?;
    }
    Ok(rows)
}

/// Whether each row has so many bits.
fn are_wide(rows: &Rows, width: usize) -> bool
    ensures { OnTrue result (All (λ row. length row ≡ width) rows.now) }
{
    for place in 0..rows.len() {
        if rows.row(place).len() != width {
            return false;
        }
    }
    true
}

/// The job of these rows, from the start bits of the latches on, on a planned design.
pub fn job_of(alloc: Global, texts: &Texts, lines: &[&[bool]]) -> Result<Job, Fail> {
    let checked = planned(alloc, texts)?;
    let start = checked.ordered().flat().start(alloc, false)?;
    let rows = rows_of(alloc, lines)?;
    if !are_wide(&rows, checked.ordered().flat().inputs() as usize) {
        return Err("a row of another width".into());
    }
    if rows.len() > 1000 {
        return Err("many rows".into());
    }
    Ok(Job::make(checked, 0, start, rows))
}

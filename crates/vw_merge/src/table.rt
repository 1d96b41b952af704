//! The table with a truth table.
ghost use Rattle.std.specs.Prelude.{◌≡◌, ◌≤◌, ◌<◌, length, IfOk, IfSome};
ghost use Rattle.std.specs.List.{All};
ghost use Rattle.vw_merge.specs.Tables.{IsTableOf};

use std::alloc::{AllocError, Global};
use vw_net::{Cover, Mark, Row, Sequence, bit_of, truth_tables_agree};

/// The marks that only these values match: the bits of a number, one for each input.
fn row_at(alloc: Global, inputs: u32, place: u32) -> Result<Row, AllocError>
    requires { inputs ≤ 6 }
    ensures { IfOk result (λ row. length row.marks ≡ inputs) }
{
    let mut marks = Vec::with_capacity(alloc, inputs as usize)?;
    for input in 0..inputs {
        marks.push(if (place >> input) & 1 == 1 {
            Mark::One
        } else {
            Mark::Zero
        })?;
    }
    Ok(Row::make(Sequence::of(marks)))
}

/// Whether there is a row for a place: it is one of so many inputs, and has this value.
fn has_row(inputs: u32, truth_table: u64, on: bool, place: u32) -> bool
    requires inputs { inputs ≤ 6 }
    requires place { place < 64 }
{
    place >> inputs == 0 && bit_of(truth_table, place) == on
}

/// A row for each place at which a truth table has this value.
fn rows_where(
    alloc: Global,
    inputs: u32,
    truth_table: u64,
    on: bool,
) -> Result<Sequence<Row>, AllocError>
    requires { inputs ≤ 6 }
    ensures { IfOk result (All (λ row. length row.marks ≡ inputs)) }
{
    let mut rows = Vec::new(alloc);
    for place in 0..64 {
        if has_row(inputs, truth_table, on, place) {
            let row = row_at(alloc, inputs, place)?;
            rows.push(row)?;
        }
    }
    Ok(Sequence::of(rows))
}

/// The value that a truth table has at fewer of its places.
fn rarer(truth_table: u64) -> bool {
    truth_table.count_ones() <= 32
}

/// A table with so many inputs, at most six, and this truth table; none where it says anything of inputs that there aren't.
pub fn table_of(alloc: Global, inputs: u32, truth_table: u64) -> Result<Option<Cover>, AllocError>
    requires { inputs ≤ 6 }
    ensures { IfOk result (λ cover. IfSome cover (IsTableOf inputs truth_table)) }
{
    let on = rarer(truth_table);
    let rows = rows_where(alloc, inputs, truth_table, on)?;
    let cover = Cover::make(alloc, inputs, on, rows)?;
    truth_tables_agree();
    if cover.truth_table() == truth_table {
        return Ok(Some(cover));
    }
    // never so, but that isn't asked of the rows
    Ok(None)
}

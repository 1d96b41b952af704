//! Tables, row by row.
ghost use Rattle.std.specs.Prelude.{◌≡◌, ◌-◌, List, ◌∷◌, [], None, length, IfOk, IfErr, IsTrue};
ghost use Rattle.vw_design.specs.Shape.{has_its_shape};
ghost use Rattle.vw_text.specs.declared.line.Line.{Line};
ghost use Rattle.vw_blif.specs.Kinds.{further};
ghost use Rattle.vw_blif.specs.Spelled.{spelled_item};
ghost use Rattle.vw_blif.specs.Designs.{table_of};
ghost use Rattle.vw_blif.specs.Steps.Blocks.{table_said, table_made};
ghost use Rattle.vw_blif.specs.Steps.Tables.{BeginsTable, SaysNames, AddsRow, SaysRow, is_other_value};

use crate::copies::{copies, copy, front_and_last, further, is};
use crate::fault::TextFault;
use crate::row::{is_row_of, row_marks};
use crate::table::GrowingTable;
use std::alloc::{AllocError, Global};
use vw_design::Item;
use vw_net::{Cover, Row, Sequence};
use vw_text::Line;

/// The most words of a `.names` line behind the keyword: 128 inputs and an output.
const MOST_NETS: usize = 129;

/// The table of a `.names` line, without rows.
pub fn begin_table(alloc: Global, line: &Line) -> Result<GrowingTable, TextFault>
    ensures table { IfOk result (BeginsTable line.now) }
    ensures fault { IfErr result (SaysNames line.now) }
{
    let nets = further(line);
    if nets.is_empty() {
        return Err(TextFault::BadWords(line.number()));
    }
    if nets.len() > MOST_NETS {
        return Err(TextFault::TooWide(line.number()));
    }
    let (ins, out) = front_and_last(nets);
    Ok(GrowingTable {
        line: line.number(),
        ins: Sequence::of(copies(alloc, ins)?),
        out: copy(alloc, out.as_slice())?,
        on: None,
        rows: Vec::new(alloc),
    })
}

/// Whether rows end in another digit than this value.
fn is_other_value(on: Option<bool>, value: bool) -> bool
    ensures { result ≡ is_other_value on value }
{
    match on {
        None => false,
        Some(true) => !value,
        Some(false) => value,
    }
}

/// A table with one row more.
pub fn add_row(alloc: Global, table: GrowingTable, line: &Line) -> Result<GrowingTable, TextFault>
    ensures row { IfOk result (AddsRow table line.now) }
    ensures fault { IfErr result (SaysRow table line.now) }
{
    let words = line.words();
    let GrowingTable {
        line: at,
        ins,
        out,
        on,
        mut rows,
    } = table;
    if !is_row_of(ins.len(), words) {
        return Err(TextFault::BadRow(line.number()));
    }
    let (_, value) = front_and_last(words);
    let ends_in_one = is(value.as_slice(), b"1");
    if is_other_value(on, ends_in_one) {
        return Err(TextFault::MixedRows(line.number()));
    }
    rows.push(Row::make(row_marks(alloc, words)?))?;
    Ok(GrowingTable {
        line: at,
        ins,
        out,
        on: Some(ends_in_one),
        rows,
    })
}

/// The item of a table that has all its rows.
pub fn close_table(alloc: Global, table: GrowingTable) -> Result<Item, AllocError>
    ensures item { IfOk result (λ item. spelled_item item ≡ table_made table []) }
    ensures shape { IfOk result (λ item. IsTrue (has_its_shape item)) }
{
    let GrowingTable {
        line,
        ins,
        out,
        on,
        rows,
    } = table;
    let inputs = ins.len() as u32;
    let cover = Cover::make(alloc, inputs, on.unwrap_or(true), Sequence::of(rows))?;
    Ok(Item::Names {
        line,
        ins,
        out,
        cover,
    })
}

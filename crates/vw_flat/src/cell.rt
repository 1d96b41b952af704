//! Cells of netlists.
ghost use Rattle.std.specs.Prelude.{◌≡◌, ◌<◌, Some, length, map, slice_get, IfOk};
ghost use Rattle.std.specs.List.{All};
ghost use Rattle.vw_net.specs.Cells.{IsWellFormed};
ghost use Rattle.vw_design.specs.Limits.{cell_count};
ghost use Rattle.vw_design.specs.Preorder.{cells};
ghost use Rattle.vw_flat.specs.Steps.Numbers.{net_count, item_with_numbers, numbers_at, IsCellAt};

use crate::number::number_read;
use std::alloc::{AllocError, Global};
use vw_design::Item;
use vw_elab::Elaborated;
use vw_net::{Cell, Sequence};

/// The item of a cell.
pub fn item_at_cell(elaborated: &Elaborated, cell: u32) -> &Item
    requires { cell < cell_count elaborated.now }
    ensures { item_with_numbers (slice_get (cells elaborated.now) cell) ≡ Some result.now }
{
    let site = elaborated.site(cell);
    let instance = elaborated.instance(site.instance);
    let model = &elaborated.design().models()[instance.model as usize];
    &model.items()[site.item as usize]
}

/// The numbers of what a cell reads as data, which are so many.
fn numbers_read(
    alloc: Global,
    elaborated: &Elaborated,
    cell: u32,
    count: u32,
) -> Result<Vec<u32>, AllocError>
    requires { length (numbers_at elaborated.now (slice_get (cells elaborated.now) cell)) ≡ count }
    ensures numbers { IfOk result (λ numbers. map (λ number. Some number) numbers.items
        ≡ numbers_at elaborated.now (slice_get (cells elaborated.now) cell)) }
    ensures fit { IfOk result
        (λ numbers. All (λ number. number < net_count elaborated.now) numbers.items) }
{
    let mut numbers = Vec::with_capacity(alloc, count as usize)?;
    for input in 0..count {
        numbers.push(number_read(elaborated, cell, input))?;
    }
    Ok(numbers)
}

/// The cell of an item.
pub fn cell_of(
    alloc: Global,
    elaborated: &Elaborated,
    cell: u32,
    item: &Item,
) -> Result<Cell, AllocError>
    requires { item_with_numbers (slice_get (cells elaborated.now) cell) ≡ Some item.now }
    ensures is { IfOk result (IsCellAt elaborated.now (slice_get (cells elaborated.now) cell)) }
    ensures fits { IfOk result (IsWellFormed (net_count elaborated.now)) }
{
    match item {
        Item::Names { cover, .. } => {
            let ins = numbers_read(alloc, elaborated, cell, cover.inputs())?;
            Ok(Cell::Gate {
                ins: Sequence::of(ins),
                cover: cover.copy(alloc)?,
            })
        }
        Item::Latch { init, .. } => Ok(Cell::Latch {
            d: number_read(elaborated, cell, 0),
            init: *init,
        }),
        Item::Sub { .. } => unreachable!(),
    }
}

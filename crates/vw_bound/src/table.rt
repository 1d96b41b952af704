//! The least microcycle in which each net can have its value.
ghost use Rattle.std.specs.Prelude.{◌≡◌, ◌<◌, length, IfOk};
ghost use Rattle.vw_bound.specs.Given.{design_in};
ghost use Rattle.vw_bound.specs.Tables.{AreLow, IsSoonTable, cell_by};

use crate::placed::Placed;
use crate::times::last_read;
use std::alloc::{AllocError, Global};
use vw_net::Cell;

/// The least microcycle in which the net of a cell can have its value, by those of the nets that it reads.
fn soon_of_cell(placed: &Placed, table: &[u64], number: u32) -> u64
    requires number { number < length placed.now.ordered.now.flat.cells }
    requires low { AreLow table.now }
    ensures { result ≡ cell_by (design_in placed.now) table.now number }
{
    let node = placed.chip_of[number as usize];
    match &placed.ordered.flat().cells()[number as usize] {
        Cell::Gate { ins, .. } => last_read(placed, table, node, ins.as_slice()),
        Cell::Latch { .. } => 0,
    }
}

/// The least microcycle in which each net can have its value: one pass over the gates in their order.
pub fn soon_table(alloc: Global, placed: &Placed) -> Result<Vec<u64>, AllocError>
    ensures { IfOk result (λ table. IsSoonTable (design_in placed.now) table.items) }
{
    let flat = placed.ordered.flat();
    let inputs = flat.inputs() as usize;
    let mut table = vec![in alloc; 0; inputs + flat.cells().len()]?;
    for number in placed.ordered.order() {
        let time = soon_of_cell(placed, table.as_slice(), *number);
        table[inputs + *number as usize] = time;
    }
    Ok(table)
}

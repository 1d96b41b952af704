//! The last microcycle that needed pairs and latches ask for.
ghost use Rattle.std.specs.Prelude.{◌≡◌, ◌≤◌, ◌<◌, ◌^◌, length, map, slice_index};
ghost use Rattle.std.specs.List.{All};
ghost use Rattle.vw_net.specs.Lists.{greatest};
ghost use Rattle.vw_plan.specs.Needs.{needed_pairs};
ghost use Rattle.vw_bound.specs.Given.{design_in};
ghost use Rattle.vw_bound.specs.Tables.{AreLow};
ghost use Rattle.vw_bound.specs.Times.{cell_due_by, cells_due_by, due_by, there_by};

use crate::placed::Placed;
use crate::times::there;
use vw_net::Cell;
use vw_plan::Need;

/// The last of some pairs.
fn pairs_due(placed: &Placed, table: &[u64], needs: &[Need]) -> u64
    requires nodes { All (λ need. need.to ≤ placed.now.board.now.chips) needs.now }
    requires low { AreLow table.now }
    ensures value { result ≡ greatest (map (λ need. there_by (design_in placed.now)
        (slice_index table.now) need.net need.to) needs.now) }
    ensures low { result < 2 ^ 63 }
{
    let mut last = 0;
    for need in needs {
        last = last.max(there(placed, table, need.net(), need.to()));
    }
    last
}

/// What a cell needs at the end of a clock: a latch what it reads, and a gate nothing.
fn cell_due(placed: &Placed, table: &[u64], number: usize, cell: &Cell) -> u64
    requires number { number < length placed.now.chip_of.now }
    requires low { AreLow table.now }
    ensures value { result ≡ cell_due_by (design_in placed.now) (slice_index table.now) number cell.now }
    ensures low { result < 2 ^ 63 }
{
    match cell {
        Cell::Gate { .. } => 0,
        Cell::Latch { d, .. } => there(placed, table, *d, placed.chip_of[number]),
    }
}

/// The last of what cells need.
fn cells_due(placed: &Placed, table: &[u64]) -> u64
    requires { AreLow table.now }
    ensures value { result ≡ cells_due_by (design_in placed.now) (slice_index table.now) 0
        placed.now.ordered.now.flat.cells }
    ensures low { result < 2 ^ 63 }
{
    let mut last = 0;
    for (number, cell) in placed.ordered.flat().cells().iter().enumerate() {
        last = last.max(cell_due(placed, table, number, cell));
    }
    last
}

/// The last of the needed pairs and of what latches read; at least one microcycle.
pub fn due(placed: &Placed, table: &[u64], needs: &[Need]) -> u64
    requires needs { needs.now
        ≡ needed_pairs placed.now.ordered.now.flat placed.now.chip_of.now }
    requires low { AreLow table.now }
    ensures value { result ≡ due_by (design_in placed.now) (slice_index table.now) }
    ensures low { result < 2 ^ 63 }
{
    let pairs = pairs_due(placed, table, needs);
    let cells = cells_due(placed, table);
    1.max(pairs.max(cells))
}

//! How many latches a netlist has.
ghost use Rattle.std.specs.Prelude.{◌≡◌, ◌≤◌, length};
ghost use Rattle.vw_net.specs.Cells.{latch_count};

use vw_net::Cell;

/// The number of latches among cells.
pub(crate) fn latch_count(cells: &[Cell]) -> u32
    requires { length cells.now ≤ 65536 }
    ensures { result ≡ latch_count cells.now }
{
    let mut count = 0;
    for cell in cells {
        if let Cell::Latch { .. } = cell {
            count += 1;
        }
    }
    count
}

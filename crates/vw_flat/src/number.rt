//! Numbers of nets.
ghost use Rattle.std.specs.Prelude.{◌≡◌, ◌<◌, [], Some, length, slice_get};
ghost use Rattle.vw_design.specs.Preorder.{cells};
ghost use Rattle.vw_design.specs.NetReads.{root_outputs};
ghost use Rattle.vw_design.specs.Flattened.{number_of};
ghost use Rattle.vw_flat.specs.Steps.Numbers.{number_by, Has32Bits, HasNumber, net_count, numbers_at};

use vw_elab::{Driver, Elaborated};
use vw_outside::Name;

/// The number of the net of a driver: columns come first, and then cells. A clock port and a missing driver have none.
pub fn number_by_driver(columns: u32, driver: Option<Driver>) -> Option<u32>
    requires { Has32Bits (number_by columns driver) }
    ensures { result ≡ number_by columns driver }
{
    match driver? {
        Driver::Column(column) => Some(column),
        Driver::Cell(cell) => Some(columns + cell),
        Driver::Clock => None,
    }
}

/// The number of the net of a driver that is no clock port.
fn number(columns: u32, driver: Option<Driver>) -> u32
    requires { HasNumber columns driver }
    ensures { number_by columns driver ≡ Some result }
{
    match number_by_driver(columns, driver) {
        Some(number) => number,
        None => unreachable!(),
    }
}

/// The number of a net that a cell reads as data: of an input of a gate, or of the data input of a latch, which is its
/// only one.
pub fn number_read(elaborated: &Elaborated, cell: u32, input: u32) -> u32
    requires { input < length (numbers_at elaborated.now (slice_get (cells elaborated.now) cell)) }
    ensures number { slice_get (numbers_at elaborated.now (slice_get
        (cells elaborated.now) cell)) input
        ≡ Some (Some result) }
    ensures fits { result < net_count elaborated.now }
{
    elaborated.is_accepted();
    number(elaborated.columns(), elaborated.read(cell, input))
}

/// The number of a net that is an output of the root.
pub fn number_output(elaborated: &Elaborated, place: usize, name: &Name) -> u32
    requires { slice_get (root_outputs elaborated.now) place
        ≡ Some (record { path = []; name = name.now }) }
    ensures number { number_of elaborated.now [] name.now ≡ Some result }
    ensures fits { result < net_count elaborated.now }
{
    elaborated.is_accepted();
    number(elaborated.columns(), elaborated.driver(0, name))
}

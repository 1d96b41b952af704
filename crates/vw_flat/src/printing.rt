//! Nets of cells as they are printed.
ghost use Rattle.std.specs.Prelude.{◌≡◌, ◌<◌, Some, slice_get, option_map, IfOk};
ghost use Rattle.vw_design.specs.Limits.{cell_count};
ghost use Rattle.vw_design.specs.Preorder.{cells};
ghost use Rattle.vw_flat.specs.Printed.{printed_site};

use crate::cell::item_at_cell;
use std::alloc::{AllocError, Global};
use vw_design::Item;
use vw_elab::Elaborated;
use vw_outside::Name;

/// The net that a cell drives, as it is printed: each place of its path followed by `/`, and then its name.
pub fn path_of(alloc: Global, elaborated: &Elaborated, cell: u32) -> Result<Name, AllocError>
    requires { cell < cell_count elaborated.now }
    ensures { IfOk result (λ name. option_map printed_site (slice_get (cells elaborated.now) cell)
        ≡ Some name) }
{
    let instance = elaborated.site(cell).instance;
    match item_at_cell(elaborated, cell) {
        Item::Names { out, .. } => elaborated.printed(alloc, instance, out),
        Item::Latch { q, .. } => elaborated.printed(alloc, instance, q),
        Item::Sub { .. } => unreachable!(),
    }
}

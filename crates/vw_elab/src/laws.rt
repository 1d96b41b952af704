//! Laws of the definitions, as contracts of functions that do nothing.
ghost use Rattle.std.specs.Prelude.{◌≡◌, ℕ, Some, slice_get};
ghost use Rattle.vw_design.specs.Accepted.{HasNoModelFault};
ghost use Rattle.vw_design.specs.Preorder.{Site, cells, instances};
ghost use Rattle.vw_design.specs.declared.design.Design.{Design};
ghost use Rattle.vw_elab.specs.Numbers.{IsInstance};
ghost use Rattle.vw_elab.specs.declared.elaborated.Instance.{Instance};
ghost use Rattle.vw_instances.specs.Tables.{IsCellSite};
ghost use Rattle.vw_instances.specs.declared.tables.CellSite.{CellSite};

use vw_design::{instances_are_listed, items_are_once};

/// Without a fault of models there is one instance at most with a number.
pub fn instances_are_one()
    ensures { (design : Design) → HasNoModelFault design → (number : ℕ) (one other : Instance)
        → IsInstance design number one → IsInstance design number other → one ≡ other }
{
    instances_are_listed();
    items_are_once()
}

/// There is one instance and one item at most of a cell.
pub fn sites_are_one()
    ensures { (design : Design) (cell : ℕ) (site : Site) → slice_get (cells design) cell ≡ Some site
        → (one other : CellSite) → IsCellSite (instances design) site one
        → IsCellSite (instances design) site other → one ≡ other }
{
    items_are_once()
}

//! Laws of the tables.
ghost use Rattle.std.specs.Prelude.{◌≡◌, ◌+◌, ◌-◌, ℕ, suc, true, List, ◌∷◌, Some, length, slice_get, take};
ghost use Rattle.vw_design.specs.Counts.{placed_one, cell_one, levels_below, weight_before};
ghost use Rattle.vw_design.specs.Limits.{IsSmall};
ghost use Rattle.vw_design.specs.PathValue.{item_at, place_of_site};
ghost use Rattle.vw_design.specs.Paths.{Path, Word, placings, model_at, items_of};
ghost use Rattle.vw_design.specs.Preorder.{is_cell, instances, sites, cells};
ghost use Rattle.vw_design.specs.declared.design.Design.{Design};
ghost use Rattle.vw_design.specs.declared.item.Bind.{Bind};
ghost use Rattle.vw_design.specs.declared.item.Item.{Item};
ghost use Rattle.vw_design.specs.declared.item.Item.TheVariants.{Sub};
ghost use Rattle.vw_instances.specs.Tables.{ArePlaced, AreCellSites};
ghost use Rattle.vw_instances.specs.declared.tables.CellSite.{CellSite};
ghost use Rattle.vw_instances.specs.declared.tables.ListedInstance.{ListedInstance};

use vw_design::{items_are_once, numbers_are_counts};

/// The number of a cell of an instance is that of the cells before the instance, with what the items before the cell
/// weigh; an instance that it places comes behind it by what the items before the placing one weigh; and the number of a
/// site is that of the cells and the instances before it.
pub fn entries_give_numbers()
    ensures cells { (design : Design) (table : List ListedInstance) → IsSmall design
        → ArePlaced design table → (number : ℕ) (path : Path) (entry : ListedInstance)
        → slice_get (instances design) number ≡ Some path → slice_get table number ≡ Some entry
        → (place : ℕ) (item : Item) → item_at design path place ≡ Some item → is_cell item ≡ true
        → place_of_site (cells design) path place ≡ Some (entry.cells
        + weight_before design cell_one (levels_below design path) path place) }
    ensures instances { (design : Design) (table : List ListedInstance) → IsSmall design
        → ArePlaced design table → (number : ℕ) (path : Path)
        → slice_get (instances design) number ≡ Some path
        → (place line : ℕ) (name : Word) (binds : List Bind)
        → item_at design path place ≡ Some (Sub line name binds)
        → slice_get (instances design) (1 + (number
        + weight_before design placed_one (levels_below design path) path place))
        ≡ Some (suc (length (placings (take place (items_of (model_at design path))))) ∷ path) }
    ensures sites { (design : Design) (table : List ListedInstance) → IsSmall design
        → ArePlaced design table → (number : ℕ) (path : Path) (entry : ListedInstance)
        → slice_get (instances design) number ≡ Some path → slice_get table number ≡ Some entry
        → (place : ℕ) (item : Item) → item_at design path place ≡ Some item
        → place_of_site (sites design) path place ≡ Some ((entry.cells + number)
        + (weight_before design cell_one (levels_below design path) path place
        + weight_before design placed_one (levels_below design path) path place)) }
{
    numbers_are_counts()
}

/// A design has one table of instances and one of cells.
pub fn tables_are_one()
    ensures instances { (design : Design) (one other : List ListedInstance)
        → ArePlaced design one → ArePlaced design other → one ≡ other }
    ensures cells { (design : Design) (one other : List CellSite)
        → AreCellSites design one → AreCellSites design other → one ≡ other }
{
    items_are_once()
}

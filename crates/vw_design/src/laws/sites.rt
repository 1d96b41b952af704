//! Laws of instances and sites.
ghost use Rattle.std.specs.Prelude.{◌≡◌, ℕ, Some, Contains, filter, slice_get};
ghost use Rattle.vw_design.specs.declared.design.Design.{Design};
ghost use Rattle.vw_design.specs.declared.item.Item.{Item};
ghost use Rattle.vw_design.specs.declared.model.Model.{Model};
ghost use Rattle.vw_design.specs.Paths.{Path, model_at};
ghost use Rattle.vw_design.specs.Preorder.{Site, is_latch_item, instances, sites, cells, latches};
ghost use Rattle.vw_design.specs.PathValue.{item_at, place_of_path, place_of_site};
ghost use Rattle.vw_design.specs.Accepted.{HasNoModelFault};

/// Without a fault of models a path is an instance exactly where it is listed among the instances.
pub fn instances_are_listed()
    ensures listed { (design : Design) → HasNoModelFault design → (path : Path) (model : Model)
        → model_at design path ≡ Some model → Contains (instances design) path }
    ensures placed { (design : Design) → HasNoModelFault design → (path : Path)
        → Contains (instances design) path
        → (model : Model) × (model_at design path ≡ Some model) }
{}

/// Each site is the item with its number in its instance, and the latches among the cells are the latches.
pub fn sites_are_items()
    ensures items { (design : Design) (site : Site) → Contains (sites design) site
        → item_at design site.path site.number ≡ Some site.item }
    ensures latches { (design : Design)
        → filter (λ site. is_latch_item site.item) (cells design) ≡ latches design }
{}

/// Without a fault of models each item of an instance is a site.
pub fn items_are_sites()
    ensures { (design : Design) → HasNoModelFault design → (path : Path) (number : ℕ) (item : Item)
        → item_at design path number ≡ Some item
        → (site : Site) × Contains (sites design) site × (site.path ≡ path)
        × (site.number ≡ number) × (site.item ≡ item) }
{}

/// Each site of a design, each cell and each instance stands where it is first listed, so that none is listed twice.
pub fn items_are_once()
    ensures sites { (design : Design) (place : ℕ) (site : Site)
        → slice_get (sites design) place ≡ Some site
        → place_of_site (sites design) site.path site.number ≡ Some place }
    ensures cells { (design : Design) (place : ℕ) (site : Site)
        → slice_get (cells design) place ≡ Some site
        → place_of_site (cells design) site.path site.number ≡ Some place }
    ensures instances { (design : Design) (place : ℕ) (path : Path)
        → slice_get (instances design) place ≡ Some path
        → place_of_path (instances design) path ≡ Some place }
{}

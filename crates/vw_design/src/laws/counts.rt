//! Laws of counts over models.
ghost use Rattle.std.specs.Prelude.{◌≡◌, ◌<◌, ◌+◌, min, ℕ, suc, Bool, true, List, [], ◌∷◌, ◌++◌, length, take, slice_get, Some, IsTrue};
ghost use Rattle.vw_design.specs.declared.design.Design.{Design};
ghost use Rattle.vw_design.specs.declared.item.Bind.{Bind};
ghost use Rattle.vw_design.specs.declared.item.Item.{Item};
ghost use Rattle.vw_design.specs.declared.item.Item.TheVariants.{Sub};
ghost use Rattle.vw_design.specs.declared.model.Model.{Model};
ghost use Rattle.vw_design.specs.Paths.{Word, Path, placings, model_named, model_at, items_of};
ghost use Rattle.vw_design.specs.Preorder.{Site, is_cell, sites_below, sites, instances, cells};
ghost use Rattle.vw_design.specs.PathValue.{item_at, place_of_site};
ghost use Rattle.vw_design.specs.Limits.{weight_of, instance_count, binding_weight, binding_count, cell_count, greatest_depth};
ghost use Rattle.vw_design.specs.Counts.{placed_one, cell_one, items_weight, model_weight, weight_before, weight_of_root, items_height, model_height, height_of_root, IsRanking};

/// The instances, the bindings and the cells of a design are what its models weigh, and its depth is their height.
pub fn counts_are_weights()
    ensures instances { (design : Design) (root : Model) → model_at design [] ≡ Some root
        → instance_count design ≡ 1 + weight_of_root design placed_one root.name }
    ensures bindings { (design : Design) (root : Model) → model_at design [] ≡ Some root
        → binding_count design ≡ weight_of_root design binding_weight root.name }
    ensures cells { (design : Design) (root : Model) → model_at design [] ≡ Some root
        → cell_count design ≡ weight_of_root design cell_one root.name }
    ensures depth { (design : Design) (root : Model) → model_at design [] ≡ Some root
        → greatest_depth design ≡ 1 + height_of_root design root.name }
{}

/// Where models are ranked, a count that is made model by model, and capped at each, is the capped weight at each depth
/// past the rank; and the weight itself is the same at each.
pub fn weights_are_counted()
    ensures counts { (design : Design) (among : Word → Bool) (rank : Word → ℕ)
        → IsRanking design among rank → (weight : Item → ℕ) (cap : ℕ) (count : Word → ℕ)
        → ((name : Word) → IsTrue (among name)
        → count name
        ≡ min cap (items_weight weight count (items_of (model_named design.models name))))
        → (depth : ℕ) (name : Word) → IsTrue (among name) → rank name < depth
        → count name ≡ min cap (model_weight design weight depth name) }
    ensures depths { (design : Design) (among : Word → Bool) (rank : Word → ℕ)
        → IsRanking design among rank → (weight : Item → ℕ) (one other : ℕ)
        (name : Word) → IsTrue (among name) → rank name < one → rank name < other
        → model_weight design weight one name ≡ model_weight design weight other name }
{}

/// Where models are ranked, a height that is made model by model is the height at each depth past the rank.
pub fn heights_are_counted()
    ensures { (design : Design) (among : Word → Bool) (rank : Word → ℕ)
        → IsRanking design among rank → (height : Word → ℕ)
        → ((name : Word) → IsTrue (among name)
        → height name ≡ items_height height (items_of (model_named design.models name)))
        → (depth : ℕ) (name : Word) → IsTrue (among name) → rank name < depth
        → height name ≡ model_height design depth name }
{}

/// Where the sites of an instance stand behind some sites of the design, the number of a cell of it is that of the cells
/// before, with what the items before it weigh; and so it is with the instances that it places, the root being the first,
/// and with all its sites, of which each is a cell or places an instance.
pub fn numbers_are_counts()
    ensures cells { (design : Design) (before after : List Site) (depth : ℕ) (path : Path)
        → sites design ≡ before ++ (sites_below design (suc depth) path ++ after)
        → (number : ℕ) (item : Item) → item_at design path number ≡ Some item → is_cell item ≡ true
        → place_of_site (cells design) path number ≡ Some (weight_of cell_one before
        + weight_before design cell_one depth path number) }
    ensures instances { (design : Design) (before after : List Site) (depth : ℕ) (path : Path)
        → sites design ≡ before ++ (sites_below design (suc depth) path ++ after)
        → (number line : ℕ) (name : Word) (binds : List Bind)
        → item_at design path number ≡ Some (Sub line name binds)
        → slice_get (instances design) (1 + (weight_of placed_one before
        + weight_before design placed_one depth path number))
        ≡ Some (suc (length (placings (take number (items_of (model_at design path))))) ∷ path) }
    ensures sites { (design : Design) (before after : List Site) (depth : ℕ) (path : Path)
        → sites design ≡ before ++ (sites_below design (suc depth) path ++ after)
        → (number : ℕ) (item : Item) → item_at design path number ≡ Some item
        → place_of_site (sites design) path number
        ≡ Some ((weight_of cell_one before + weight_of placed_one before)
        + (weight_before design cell_one depth path number
        + weight_before design placed_one depth path number)) }
{}

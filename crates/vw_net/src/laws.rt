//! Laws of the definitions, as contracts of functions that do nothing.
ghost use Rattle.std.specs.Prelude.{◌≡◌, ◌≤◌, ◌+◌, ℕ, Bool, List, ◌++◌, length, map, slice_get, Some};
ghost use Rattle.vw_net.specs.declared.flat.Flat.{Flat};
ghost use Rattle.vw_net.specs.declared.ordered.Ordered.{Ordered};
ghost use Rattle.vw_net.specs.declared.cover.Cover.{Cover};
ghost use Rattle.vw_net.specs.declared.cell.Cell.TheVariants.{Gate};
ghost use Rattle.vw_net.specs.Cover.{cover_value};
ghost use Rattle.vw_net.specs.Value.{level_value, net_value};
ghost use Rattle.vw_net.specs.FoundValue.{found_level, found_value, as_it_is};
ghost use Rattle.vw_net.specs.TruthTable.{bit_of, place_of, truth_table};
ghost use Rattle.vw_net.specs.History.{flat_history, joined};

/// The truth table of a cover of at most six inputs has, at the place of any values, the cover's value of them.
pub fn truth_tables_agree()
    ensures { (cover : Cover) (bits : List Bool) → cover.inputs ≤ 6 → length bits ≡ cover.inputs
        → bit_of (truth_table cover) (place_of bits) ≡ cover_value cover bits }
{}

/// It has this value at the place of these values and any further ones up to six in all: it repeats itself over inputs that
/// there aren't.
pub fn truth_tables_repeat()
    ensures { (cover : Cover) (bits more : List Bool) → length bits ≡ cover.inputs
        → length (bits ++ more) ≤ 6
        → bit_of (truth_table cover) (place_of (bits ++ more)) ≡ cover_value cover bits }
{}

/// Where there is an order, following more drivers in a row than there are cells changes no value.
pub fn levels_settle()
    ensures { (ordered : Ordered) (row state : List Bool) (level net : ℕ)
        → length ordered.flat.cells + 1 ≤ level
        → level_value level ordered.flat row state net ≡ net_value ordered.flat row state net }
{}

/// Where there is an order, a gate's net has its table's value of the values of the nets that it reads.
pub fn gates_settle()
    ensures { (ordered : Ordered) (row state : List Bool) (number : ℕ) (ins : List ℕ)
        (cover : Cover) → slice_get ordered.flat.cells number ≡ Some (Gate ins cover)
        → net_value ordered.flat row state (ordered.flat.inputs + number)
        ≡ cover_value cover (map (net_value ordered.flat row state) ins) }
{}

/// The same whatever readers find of a net, `find` being what they find of a net that has a bit: following more drivers
/// changes nothing.
pub fn found_levels_settle()
    ensures { (find : ℕ → Bool → Bool) (ordered : Ordered) (row state : List Bool) (level net : ℕ)
        → length ordered.flat.cells + 1 ≤ level
        → found_level find level ordered.flat row state net
        ≡ found_value find ordered.flat row state net }
{}

/// Of a gate's net readers find what they find where it has its table's value of what is found of the nets that it reads.
pub fn found_gates_settle()
    ensures { (find : ℕ → Bool → Bool) (ordered : Ordered) (row state : List Bool) (number : ℕ)
        (ins : List ℕ) (cover : Cover) → slice_get ordered.flat.cells number
        ≡ Some (Gate ins cover) → found_value find ordered.flat row state
        (ordered.flat.inputs + number) ≡ find (ordered.flat.inputs + number)
        (cover_value cover (map (found_value find ordered.flat row state) ins)) }
{}

/// Where each net is found as it is, what is found is its value.
pub fn plain_values_are_found()
    ensures { (flat : Flat) (row state : List Bool) (net : ℕ)
        → found_value as_it_is flat row state net ≡ net_value flat row state net }
{}

/// The history of two lists of rows, one after the other, is that of the first and then that of the second from
/// the state after the first.
pub fn histories_join()
    ensures { (flat : Flat) (state : List Bool) (first second : List (List Bool))
        → flat_history flat state (first ++ second)
        ≡ joined (flat_history flat state first)
        (flat_history flat (flat_history flat state first).last second) }
{}

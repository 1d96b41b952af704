//! Laws of values and histories.
ghost use Rattle.std.specs.Prelude.{◌≡◌, ◌≤◌, ◌+◌, ◌==◌, ℕ, Bool, List, Some, length, map, slice_get};
ghost use Rattle.std.specs.List.{list_any};
ghost use Rattle.vw_net.specs.declared.cover.Cover.{Cover};
ghost use Rattle.vw_net.specs.declared.flat.Flat.{Flat};
ghost use Rattle.vw_net.specs.declared.ordered.Ordered.{Ordered};
ghost use Rattle.vw_net.specs.Cells.{start_values};
ghost use Rattle.vw_net.specs.Cover.{cover_value};
ghost use Rattle.vw_net.specs.Order.{read_nets_at};
ghost use Rattle.vw_net.specs.Value.{level_value, net_value};
ghost use Rattle.vw_net.specs.History.{flat_history};
ghost use Rattle.vw_design.specs.declared.design.Design.{Design};
ghost use Rattle.vw_design.specs.declared.item.Item.TheVariants.{Names};
ghost use Rattle.vw_design.specs.Paths.{Word, Path, Net};
ghost use Rattle.vw_design.specs.Drivers.{at_cell, driver};
ghost use Rattle.vw_design.specs.Preorder.{Site, cells};
ghost use Rattle.vw_design.specs.PathValue.{item_at, path_level, path_value};
ghost use Rattle.vw_design.specs.PathHistory.{path_history};
ghost use Rattle.vw_design.specs.Flattened.{number_of, IsFlatOf};
ghost use Rattle.vw_design.specs.Accepted.{IsAccepted};
ghost use Rattle.vw_design.specs.Loops.{gate_at, gate_reads, IsLoopFree};

/// A netlist of a design, whether it has loops or not, gives each net with a number the value that the design gives it
/// by its paths, at each level.
pub fn values_agree()
    ensures levels { (design : Design) (watched : List Net) (flat : Flat) → IsFlatOf design watched flat
        → (row state : List Bool) (level : ℕ) (path : Path) (name : Word) (net : ℕ)
        → number_of design path name ≡ Some net
        → level_value level flat row state net ≡ path_level level design row state path name }
    ensures values { (design : Design) (watched : List Net) (flat : Flat) → IsFlatOf design watched flat
        → (row state : List Bool) (path : Path) (name : Word) (net : ℕ)
        → number_of design path name ≡ Some net
        → net_value flat row state net ≡ path_value design row state path name }
{}

/// The history of a design's netlist, from the start values of its latches, is the history of the design by its paths,
/// whether it has loops or not, and whichever nets are watched.
pub fn histories_agree()
    ensures { (design : Design) (watched : List Net) (flat : Flat) → IsFlatOf design watched flat → (unknown : Bool)
        (rows : List (List Bool)) → flat_history flat (start_values unknown flat.cells) rows
        ≡ path_history design watched unknown rows }
{}

/// In an accepted design without loops following more drivers in a row than there are cells changes no value.
pub fn deeper_is_the_same()
    ensures { (design : Design) → IsAccepted design → IsLoopFree design → (row state : List Bool)
        (level : ℕ) (path : Path) (name : Word) → length (cells design) + 1 ≤ level
        → path_level level design row state path name ≡ path_value design row state path name }
{}

/// In an accepted design without loops a net that a gate drives has the value of the gate's table, of the values of its
/// inputs.
pub fn gates_have_their_values()
    ensures { (design : Design) → IsAccepted design → IsLoopFree design → (row state : List Bool)
        (path : Path) (name : Word) (at : Path) (number line : ℕ) (ins : List Word) (out : Word)
        (cover : Cover) → driver design path name ≡ Some (at_cell at number)
        → item_at design at number ≡ Some (Names line ins out cover)
        → path_value design row state path name
        ≡ cover_value cover (map (path_value design row state at) ins) }
{}

/// A gate of a design has another gate or latch as driver of one of its inputs exactly where, in the design's netlist,
/// its cell reads the net of the other's cell.
pub fn reads_agree()
    ensures { (design : Design) (watched : List Net) (flat : Flat) → IsFlatOf design watched flat → (place other : ℕ)
        (site read : Site) → slice_get (cells design) place ≡ Some site
        → slice_get (cells design) other ≡ Some read
        → (line : ℕ) (ins : List Word) (out : Word) (cover : Cover)
        → site.item ≡ Names line ins out cover
        → gate_reads design (gate_at site) (gate_at read)
        ≡ list_any (λ net. net == flat.inputs + other) (read_nets_at (slice_get flat.cells place)) }
{}

/// An accepted design is free of loops where the gates of its netlist have an order.
pub fn ordered_is_loop_free()
    ensures { (design : Design) → IsAccepted design → (watched : List Net) (ordered : Ordered)
        → IsFlatOf design watched ordered.flat → IsLoopFree design }
{}

/// A design with watched nets has one netlist at most: everything in it is fixed by these.
pub fn netlists_are_one()
    ensures { (design : Design) (watched : List Net) (one other : Flat) → IsFlatOf design watched one
        → IsFlatOf design watched other → one ≡ other }
{}

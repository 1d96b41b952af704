//! Laws of drivers.
ghost use Rattle.std.specs.Prelude.{◌≡◌, ◌<◌, ◌≤◌, ◌+◌, ℕ, Option, Some, Contains, length};
ghost use Rattle.vw_design.specs.declared.design.Design.{Design};
ghost use Rattle.vw_design.specs.declared.model.Model.{Model};
ghost use Rattle.vw_design.specs.Paths.{Word, Path, Net, model_at};
ghost use Rattle.vw_design.specs.Drivers.{Source, turn, follow_turn, driver};
ghost use Rattle.vw_design.specs.Preorder.{cells};
ghost use Rattle.vw_design.specs.NetReads.{data_reads};
ghost use Rattle.vw_design.specs.Clocks.{columns};
ghost use Rattle.vw_design.specs.Claims.{claims};
ghost use Rattle.vw_design.specs.NetFaults.{two_drivers};
ghost use Rattle.vw_design.specs.Flattened.{number_of};
ghost use Rattle.vw_design.specs.Accepted.{HasNoModelFault, IsAccepted};

/// Without a fault of models the driver of a net is that of the net to which one turn leads, where the turn doesn't end.
pub fn drivers_turn()
    ensures { (design : Design) → HasNoModelFault design → (path : Path) (name : Word)
        → driver design path name ≡ follow_turn (driver design) (turn design path name) }
{}

/// Without a fault of models whatever goes along the turns like this gives each net its driver.
pub fn drivers_are_one()
    ensures { (design : Design) → HasNoModelFault design → (found : Path → Word → Option Source)
        → ((path : Path) (name : Word)
        → found path name ≡ follow_turn found (turn design path name))
        → (path : Path) (name : Word) → found path name ≡ driver design path name }
{}

/// In an accepted design each net that is read as data has a number, that of a column or of a cell.
pub fn reads_are_numbered()
    ensures { (design : Design) → IsAccepted design → (net : Net) → Contains (data_reads design) net
        → (number : ℕ) × (number_of design net.path net.name ≡ Some number)
        × (number < length (columns design) + length (cells design)) }
{}

/// In an accepted design no net has two claims, and the net that has two drivers has two claims.
pub fn claims_are_single()
    ensures single { (design : Design) → IsAccepted design → (path : Path) (model : Model)
        → model_at design path ≡ Some model → (name : Word)
        → length (claims design model name) ≤ 1 }
    ensures twice { (design : Design) (net : Net) → two_drivers design ≡ Some net
        → (model : Model) × (model_at design net.path ≡ Some model)
        × (2 ≤ length (claims design model net.name)) }
{}

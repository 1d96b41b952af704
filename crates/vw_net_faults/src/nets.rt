ghost use Rattle.std.proofs.Props.{props};
ghost use Rattle.vw_design.specs.Accepted.{HasNoModelFault};
ghost use Rattle.vw_instances.specs.Tables.{AreCellSites};
ghost use Rattle.vw_drivers.specs.Tables.{AreDesignTables};
ghost use Rattle.vw_drivers.specs.Drivers.{AreDrivers};
ghost use Rattle.vw_net_faults.specs.CellSitesOnce.{AreCellSites-prop};

use vw_design::Design;
use vw_drivers::{Drivers, Tables};
use vw_instances::CellSite;
use vw_outside::Name;

/// A design without a fault of its models, and the tables by which its nets are looked at.
#[derive(Clone, Copy)]
pub struct Nets<'a> {
    pub design: &'a Design,
    pub tables: &'a Tables,
    pub drivers: &'a Drivers,
    /// The gates and latches in preorder.
    pub cells: &'a [CellSite],
    pub ghost faultless: { HasNoModelFault design.now } by { Prim.hlevel props },
    // A fact of a struct has one proof, so that these two say that there is some proof.
    pub ghost has_tables: { ∥ AreDesignTables design.now tables.now ∥₁ },
    pub ghost has_drivers: { ∥ AreDrivers design.now tables.now drivers.now ∥₁ },
    pub ghost has_cells: { AreCellSites design.now cells.now } by { AreCellSites-prop design.now cells.now },
}

/// Two nets that should be alike: the first one, and the first that is another one, as they are printed.
#[derive(Drop)]
pub struct Pair {
    pub first: Name,
    pub other: Name,
}

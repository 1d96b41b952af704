//! The tables of a design by numbers.
ghost use Rattle.std.specs.Prelude.{◌≡◌, IfOk};
ghost use Rattle.vw_design.specs.Accepted.{HasNoModelFault};
ghost use Rattle.vw_instances.specs.Sizes.{AreSizes};
ghost use Rattle.vw_elab.specs.Steps.DesignParts.{AreDesignParts};

use std::alloc::{AllocError, Global};
use vw_design::Design;
use vw_drivers::{Drivers, Tables};
use vw_instances::{CellSite, Sizes, list_instances};
use vw_models::Targets;
use vw_net::Sequence;
use vw_net_faults::Nets;

/// The instances, the cells and the drivers of a design by numbers.
pub struct NumberedParts {
    pub tables: Tables,
    pub cells: Sequence<CellSite>,
    pub drivers: Drivers,
}

impl Drop for NumberedParts {
    fn drop(self) {
        let NumberedParts {
            tables: _,
            cells: _,
            drivers: _,
        } = self;
    }
}

impl NumberedParts {
    /// Those of a design within the limits.
    pub fn of(alloc: Global, targets: &Targets, sizes: Sizes) -> Result<Self, AllocError>
        requires sizes { AreSizes targets.now.design.now sizes }
        requires faultless { HasNoModelFault targets.now.design.now }
        ensures { IfOk result (AreDesignParts targets.now.design.now) }
    {
        let walked = list_instances(alloc, targets, sizes.instances, sizes.cells)?;
        let tables = Tables::of(alloc, targets, walked.instances, sizes.before)?;
        let drivers = Drivers::of(alloc, targets.design, &tables)?;
        Ok(NumberedParts {
            tables,
            cells: walked.cells,
            drivers,
        })
    }

    /// The tables by which the nets are looked at.
    pub fn nets<'a>(&'a self, design: &'a Design) -> Nets<'a>
        requires { AreDesignParts design.now self.now }
        ensures design { result.design.now ≡ design.now }
        ensures tables { result.tables.now ≡ self.now.tables }
    {
        Nets {
            design,
            tables: &self.tables,
            drivers: &self.drivers,
            cells: self.cells.as_slice(),
        }
    }
}

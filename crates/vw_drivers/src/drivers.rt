//! Tables of drivers.
ghost use Rattle.std.specs.Prelude.{◌≡◌, IfOk};
ghost use Rattle.vw_design.specs.declared.design.Design.{Design};
ghost use Rattle.vw_design.specs.Accepted.{HasNoModelFault};
ghost use Rattle.vw_drivers.specs.Tables.{AreDesignTables};
ghost use Rattle.vw_drivers.specs.Drivers.{AreDrivers, IsSource};

use crate::led::led_driver;
use crate::outputs::outputs_by;
use crate::ports::ports_by;
use crate::source::Source;
use crate::tables::Tables;
use std::alloc::{AllocError, Global};
use vw_design::Design;
use vw_net::Sequence;

/// The drivers of all formals that are bound, by the numbers of instances.
pub struct Drivers {
    /// For each instance and each binding of the item that places it, the driver of a formal that is no port.
    pub outputs: Sequence<Sequence<Option<Source>>>,
    /// For each instance and each claim of its model, as far as they go, the driver of an input or clock.
    pub ports: Sequence<Sequence<Option<Source>>>,
}

impl Drop for Drivers {
    fn drop(self) {
        let Drivers {
            outputs: _,
            ports: _,
        } = self;
    }
}

impl Drivers {
    /// The drivers of a design without a fault of models. It looks each binding up once, first those of outputs, from the
    /// last instance to the first, and then those of ports, from the first to the last.
    pub fn of(alloc: Global, design: &Design, tables: &Tables) -> Result<Self, AllocError>
        requires faultless { HasNoModelFault design.now }
        requires tables { AreDesignTables design.now tables.now }
        ensures { IfOk result (AreDrivers design.now tables.now) }
    {
        let outputs = outputs_by(alloc, tables)?;
        let ports = ports_by(alloc, tables, outputs.as_slice())?;
        Ok(Drivers {
            outputs: Sequence::of(outputs),
            ports: Sequence::of(ports),
        })
    }

    /// The driver of the nets of an instance on whose names the first claim has this number. It takes no memory.
    pub fn source(&self, tables: &Tables, instance: u32, claim: Option<u32>) -> Option<Source>
        ensures { (design : Design) → HasNoModelFault design → AreDesignTables design tables.now
            → AreDrivers design tables.now self.now
            → IsSource design tables.now instance claim result }
    {
        let outputs = self.outputs.as_slice();
        led_driver(tables, outputs, self.ports.as_slice(), instance, claim)
    }
}

//! Nets that are read and have no driver.
ghost use Rattle.std.specs.Prelude.{◌≡◌, IfOk};
ghost use Rattle.vw_design.specs.NetFaults.{undriven};
ghost use Rattle.vw_net_faults.specs.Nets.{printed_net};

use crate::nets::Nets;
use crate::search::Search;
use crate::wanted::Wanted;
use std::alloc::{AllocError, Global};
use vw_outside::Name;

impl<'a> Nets<'a> {
    /// The first net that is read and has no driver.
    pub fn undriven(&self, alloc: Global) -> Result<Option<Name>, AllocError>
        ensures { IfOk result (λ found. found ≡ printed_net (undriven self.now.design.now)) }
    {
        let search = Search {
            nets: self,
            wanted: &Wanted::Undriven,
        };
        search.first_wanted(alloc)
    }
}

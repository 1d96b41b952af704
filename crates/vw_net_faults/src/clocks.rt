//! Controls of latches, and nets that read clock ports.
ghost use Rattle.std.specs.Prelude.{◌≡◌, Some, true, IfOk};
ghost use Rattle.vw_design.specs.Distinct.{has_name};
ghost use Rattle.vw_design.specs.Paths.{Word};
ghost use Rattle.vw_design.specs.NetFaults.{gated_clock, several_clocks, clock_as_data};
ghost use Rattle.vw_drivers.specs.Firsts.{number_named};
ghost use Rattle.vw_drivers.specs.Tables.{root_firsts};
ghost use Rattle.vw_net_faults.specs.Steps.Ports.{root_ports};
ghost use Rattle.vw_net_faults.specs.Nets.{printed_net, ports_pair};

use crate::nets::{Nets, Pair};
use crate::ports::{first_port, other_port};
use crate::search::Search;
use crate::wanted::Wanted;
use std::alloc::{AllocError, Global};
use vw_outside::Name;

impl<'a> Nets<'a> {
    /// The first control whose driver is a gate or a latch.
    pub fn gated_clock(&self, alloc: Global) -> Result<Option<Name>, AllocError>
        ensures { IfOk result (λ found. found ≡ printed_net (gated_clock self.now.design.now)) }
    {
        let search = Search {
            nets: self,
            wanted: &Wanted::Gated,
        };
        search.wanted_read(alloc)
    }

    /// The root port of the first control, and the first other one of another control.
    pub fn several_clocks(&self, alloc: Global) -> Result<Option<Pair>, AllocError>
        ensures { IfOk result (λ found. found ≡ ports_pair (several_clocks self.now.design.now)) }
    {
        let ports = self.control_ports(alloc)?;
        let Some(first) = first_port(ports.as_slice()) else {
            return Ok(None);
        };
        let Some(other) = other_port(ports.as_slice(), first) else {
            return Ok(None);
        };
        let pair = self.two_ports(alloc, first, other)?;
        Ok(pair)
    }

    /// Two ports of the root by their numbers.
    fn two_ports(&self, alloc: Global, first: u32, other: u32) -> Result<Option<Pair>, AllocError>
        ensures { IfOk result (λ found. (one two : Word)
            → has_name (root_ports self.now.design.now) one ≡ true
            → has_name (root_ports self.now.design.now) two ≡ true
            → number_named (root_firsts self.now.tables.now) one ≡ Some first
            → number_named (root_firsts self.now.tables.now) two ≡ Some other
            → found ≡ Some (record { first = one; other = two })) }
    {
        let Some(first) = self.port_named(first) else {
            return Ok(None);
        };
        let Some(other) = self.port_named(other) else {
            return Ok(None);
        };
        let first = first.copy(alloc)?;
        let other = other.copy(alloc)?;
        Ok(Some(Pair { first, other }))
    }

    /// The first net that a gate, the data input of a latch or an output of the root reads, and that is a clock port.
    pub fn clock_as_data(&self, alloc: Global) -> Result<Option<Name>, AllocError>
        ensures { IfOk result (λ found. found ≡ printed_net (clock_as_data self.now.design.now)) }
    {
        let clock_flags = self.clock_flags(alloc)?;
        let wanted = Wanted::ClockPort(clock_flags.as_slice());
        let search = Search {
            nets: self,
            wanted: &wanted,
        };
        search.first_wanted(alloc)
    }
}

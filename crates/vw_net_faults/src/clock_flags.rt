//! Which claims of the root are those of clock ports.
ghost use Rattle.std.specs.Prelude.{◌≡◌, ◌<◌, ℕ, Some, length, filter_map, slice_get, IfOk};
ghost use Rattle.vw_net.specs.Order.{is_among};
ghost use Rattle.vw_design.specs.Clocks.{clock_ports};
ghost use Rattle.vw_drivers.specs.Firsts.{number_named};
ghost use Rattle.vw_drivers.specs.Tables.{root_firsts};
ghost use Rattle.vw_net_faults.specs.Steps.Wanted.{AreClockFlags};

use crate::nets::Nets;
use std::alloc::{AllocError, Global};
use vw_drivers::ModelClaims;
use vw_outside::Name;

impl<'a> Nets<'a> {
    /// For each claim of the root, by its number, whether its name is a clock port.
    pub(crate) fn clock_flags(&self, alloc: Global) -> Result<Vec<bool>, AllocError>
        ensures { IfOk result (λ clock_flags. AreClockFlags self.now.design.now
            (root_firsts self.now.tables.now) clock_flags.items) }
    {
        let numbers = self.clock_numbers(alloc)?;
        let clock_flags = flagged(alloc, self.root_claims().count(), numbers.as_slice())?;
        Ok(clock_flags)
    }

    /// The numbers of the claims of clock ports: of the `.clock` names of the root, and of the ports to which controls
    /// lead.
    fn clock_numbers(&self, alloc: Global) -> Result<Vec<u32>, AllocError>
        ensures { IfOk result (λ numbers. numbers.items
            ≡ filter_map (number_named (root_firsts self.now.tables.now))
            (clock_ports self.now.design.now)) }
    {
        let mut numbers = numbers_named(alloc, self.root_claims(), self.root().clocks())?;
        let ports = self.control_ports(alloc)?;
        numbers.extend_from_slice(ports.as_slice())?;
        Ok(numbers)
    }
}

/// The numbers of the claims on names.
fn numbers_named(
    alloc: Global,
    claims: &ModelClaims,
    names: &[Name],
) -> Result<Vec<u32>, AllocError>
    ensures { IfOk result (λ numbers. numbers.items
        ≡ filter_map (number_named claims.now.firsts) names.now) }
{
    let mut numbers = Vec::new(alloc);
    for name in names {
        if let Some(number) = claims.first(name.as_slice()) {
            numbers.push(number)?;
        }
    }
    Ok(numbers)
}

/// For each of so many places, whether it is one of some numbers.
fn flagged(alloc: Global, count: usize, numbers: &[u32]) -> Result<Vec<bool>, AllocError>
    ensures { IfOk result (λ clock_flags. (place : ℕ) → place < count
        → slice_get clock_flags.items place ≡ Some (is_among numbers.now place)) }
{
    let mut clock_flags = vec![in alloc; false; count]?;
    for number in numbers {
        let place = *number as usize;
        if place < count {
            clock_flags[place] = true;
        }
    }
    Ok(clock_flags)
}

//! Faults of nets.
ghost use Rattle.vw_design.specs.Accepted.{IsAccepted};
ghost use Rattle.vw_elab.specs.Steps.FaultSearch.{IsMadeOrRefused, HasDrivers};

use crate::fault::DesignFault;
use std::alloc::Global;
use vw_net_faults::Nets;

/// Looks for nets without a driver, or with two.
fn check_drivers(alloc: Global, nets: &Nets) -> Result<(), DesignFault>
    ensures { IsMadeOrRefused nets.now.design.now (λ _. HasDrivers nets.now.design.now) result }
{
    if let Some(net) = nets.undriven(alloc)? {
        return Err(DesignFault::Undriven(net));
    }
    if let Some(net) = nets.two_drivers(alloc)? {
        return Err(DesignFault::TwoDrivers(net));
    }
    Ok(())
}

/// Looks for faults of clocks.
fn check_clocks(alloc: Global, nets: &Nets) -> Result<(), DesignFault>
    requires { HasDrivers nets.now.design.now }
    ensures { IsMadeOrRefused nets.now.design.now (λ _. IsAccepted nets.now.design.now) result }
{
    if let Some(net) = nets.gated_clock(alloc)? {
        return Err(DesignFault::GatedClock(net));
    }
    if let Some(ports) = nets.several_clocks(alloc)? {
        return Err(DesignFault::SeveralClocks(ports.first, ports.other));
    }
    if let Some(latches) = nets.several_edges(alloc)? {
        return Err(DesignFault::SeveralEdges(latches.first, latches.other));
    }
    if let Some(net) = nets.clock_as_data(alloc)? {
        return Err(DesignFault::ClockAsData(net));
    }
    Ok(())
}

/// Looks for faults of nets. A design without one is accepted.
pub fn check_nets(alloc: Global, nets: &Nets) -> Result<(), DesignFault>
    ensures { IsMadeOrRefused nets.now.design.now (λ _. IsAccepted nets.now.design.now) result }
{
    check_drivers(alloc, nets)?;
    check_clocks(alloc, nets)
}

//! How many cells, wires and hops there are where.
ghost use Rattle.std.specs.Prelude.{◌≡◌, ◌≤◌, ◌<◌, ◌^◌, ◌==◌, ◌++◌, length, map, count_by, slice_index, IfOk, OnOk, Some};
ghost use Rattle.std.specs.List.{flat_map};
ghost use Rattle.vw_net.specs.Order.{is_gate, is_latch};
ghost use Rattle.vw_chain.specs.Timing.{planned_of};
ghost use Rattle.vw_plan.specs.Sound.{hops_of};
ghost use Rattle.vw_report.specs.Counts.{gates_on, hops_over, latches_on, link_of, wires_from, wires_to};

use crate::reported::Reported;
use std::alloc::{AllocError, Global};
use vw_net::Cell;
use vw_plan::{Hop, Wire};
use vw_ready::LinkTable;

/// Whether a cell is a gate.
fn is_gate(cell: &Cell) -> bool
    ensures { result ≡ is_gate (Some cell.now) }
{
    match cell {
        Cell::Gate { .. } => true,
        Cell::Latch { .. } => false,
    }
}

/// Whether a cell is a latch.
fn is_latch(cell: &Cell) -> bool
    ensures { result ≡ is_latch (Some cell.now) }
{
    match cell {
        Cell::Gate { .. } => false,
        Cell::Latch { .. } => true,
    }
}

/// The number of the link over which a hop goes; 0 where no link leads there.
pub fn link_of(links: &LinkTable, hop: &Hop) -> u32
    ensures { result ≡ link_of links.now hop.now }
{
    links.number(hop.from(), hop.to()).unwrap_or(0)
}

impl<'a> Reported<'a> {
    /// The gates of a chip.
    pub fn gates_on(&self, chip: u32) -> u64
        ensures { result ≡ gates_on (planned_of self.now.timed.now) chip }
    {
        let chips = self.timed.wired.plan.chip_of();
        let cells = self.timed.wired.ordered.flat().cells();
        chips
            .iter()
            .zip(cells)
            .filter(|(own, cell)| **own == chip && is_gate(cell))
            .count() as u64
    }

    /// The latches of a chip.
    pub fn latches_on(&self, chip: u32) -> u64
        ensures { result ≡ latches_on (planned_of self.now.timed.now) chip }
    {
        let chips = self.timed.wired.plan.chip_of();
        let cells = self.timed.wired.ordered.flat().cells();
        chips
            .iter()
            .zip(cells)
            .filter(|(own, cell)| **own == chip && is_latch(cell))
            .count() as u64
    }

    /// The wires that bring a net to a node.
    pub fn wires_to(&self, node: u32) -> u64
        ensures { result ≡ wires_to (planned_of self.now.timed.now) node }
    {
        let wires = self.timed.wired.plan.wires();
        wires.iter().filter(|wire| wire.to() == node).count() as u64
    }

    /// The wires that bring nets of a node to others.
    pub fn wires_from(&self, node: u32) -> u64
        ensures { result ≡ wires_from (planned_of self.now.timed.now) node }
    {
        let wires = self.timed.wired.plan.wires();
        wires
            .iter()
            .filter(|wire| self.timed.home(wire.net()) == node)
            .count() as u64
    }
}

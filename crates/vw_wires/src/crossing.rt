//! The reads that cross from one node to another.
ghost use Rattle.std.specs.Prelude.{◌≡◌, ◌++◌, length, IfOk, OnOk};
ghost use Rattle.vw_net.specs.Cells.{read_nets};
ghost use Rattle.vw_plan.specs.Nets.{node_of};
ghost use Rattle.vw_wires.specs.Steps.Crossings.{crossing_nets, crossings};

use std::alloc::{AllocError, Global};
use vw_net::{Cell, Flat};
use vw_plan::Need;

/// The node of a net: the host where it is an input, else the chip of the cell that drives it.
pub fn node_of_net(flat: &Flat, chip_of: &[u32], net: u32) -> u32
    ensures { result ≡ node_of flat.now chip_of.now net }
{
    if net < flat.inputs() {
        return 0;
    }
    match chip_of.get((net - flat.inputs()) as usize) {
        Some(chip) => *chip,
        None => 0,
    }
}

/// Lists those of these nets that aren't of the node, with the node.
fn list_nets(
    flat: &Flat,
    chip_of: &[u32],
    node: u32,
    nets: &[u32],
    needs: &mut Vec<Need>,
) -> Result<(), AllocError>
    ensures { OnOk result (needs.new.items
        ≡ needs.old.items ++ crossing_nets flat.now chip_of.now node nets.now) }
{
    for net in nets {
        if node_of_net(flat, chip_of, *net) != node {
            needs.push(Need::make(*net, node))?;
        }
    }
    Ok(())
}

/// Lists the nets of other nodes that a cell of this node reads.
fn list_reads(
    flat: &Flat,
    chip_of: &[u32],
    node: u32,
    cell: &Cell,
    needs: &mut Vec<Need>,
) -> Result<(), AllocError>
    ensures { OnOk result (needs.new.items
        ≡ needs.old.items ++ crossing_nets flat.now chip_of.now node (read_nets cell.now)) }
{
    match cell {
        Cell::Gate { ins, .. } => list_nets(flat, chip_of, node, ins.as_slice(), needs),
        Cell::Latch { d, .. } => list_nets(flat, chip_of, node, &[*d], needs),
    }
}

/// Each read of a net of another node: by the cells in order, and then by the host, which reads the outputs.
pub fn reads_across(alloc: Global, flat: &Flat, chip_of: &[u32]) -> Result<Vec<Need>, AllocError>
    requires { length chip_of.now ≡ length flat.now.cells }
    ensures { IfOk result (λ needs. needs.items ≡ crossings flat.now chip_of.now) }
{
    let mut needs = Vec::new(alloc);
    for (number, cell) in flat.cells().iter().enumerate() {
        list_reads(flat, chip_of, chip_of[number], cell, &mut needs)?;
    }
    list_nets(flat, chip_of, 0, flat.outputs(), &mut needs)?;
    Ok(needs)
}

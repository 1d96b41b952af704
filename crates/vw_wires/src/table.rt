//! The depth of each net.
ghost use Rattle.std.specs.Prelude.{◌≡◌, ◌≤◌, ◌==◌, ◌+◌, if◌then◌else◌, ℕ, length, map, slice_index, slice_get, IfOk};
ghost use Rattle.std.specs.List.{All};
ghost use Rattle.vw_net.specs.Lists.{greatest};
ghost use Rattle.vw_plan.specs.Needs.{crossing, depth};
ghost use Rattle.vw_plan.specs.Nets.{greatest_read, node_of};

use crate::crossing::node_of_net;
use std::alloc::{AllocError, Global};
use vw_net::{Cell, Flat, Ordered};
use vw_plan::{depths_are_small, depths_follow_drivers};

/// The depth of a net as a node has it: one more where the net comes from another node.
fn depth_there(flat: &Flat, chip_of: &[u32], table: &[u32], node: u32, net: u32) -> u32
    requires { All (λ depth. depth ≤ 65537) table.now }
    ensures { result ≡ slice_index table.now net
        + (if node_of flat.now chip_of.now net == node then 0 else 1) }
{
    let depth = match table.get(net as usize) {
        Some(depth) => *depth,
        None => 0,
    };
    if node_of_net(flat, chip_of, net) == node {
        depth
    } else {
        depth + 1
    }
}

/// The depth of a gate whose inputs are these nets, given the depths of nets: the greatest of theirs, each with one
/// more where the net comes from another node.
fn deepest(flat: &Flat, chip_of: &[u32], table: &[u32], net: u32, ins: &[u32]) -> u32
    requires { All (λ depth. depth ≤ 65537) table.now }
    ensures { result ≡ greatest (map (λ read. slice_index table.now read
        + crossing flat.now chip_of.now net read) ins.now) }
{
    let node = node_of_net(flat, chip_of, net);
    let mut most = 0;
    for read in ins {
        most = most.max(depth_there(flat, chip_of, table, node, *read));
    }
    most
}

/// The depth of a net that a cell drives, given the depths of the nets that it reads.
fn depth_of_cell(flat: &Flat, chip_of: &[u32], table: &[u32], number: u32, net: u32) -> u32
    requires { All (λ depth. depth ≤ 65537) table.now }
    ensures { result ≡ greatest_read (λ read. slice_index table.now read
        + crossing flat.now chip_of.now net read) (slice_get flat.now.cells number) }
{
    match flat.cells().get(number as usize) {
        Some(Cell::Gate { ins, .. }) => deepest(flat, chip_of, table, net, ins.as_slice()),
        Some(Cell::Latch { .. }) => 0,
        None => 0,
    }
}

/// The depth of each net, and of nothing else: one pass over the gates in their order.
pub fn depth_table(
    alloc: Global,
    ordered: &Ordered,
    chip_of: &[u32],
) -> Result<Vec<u32>, AllocError>
    ensures nets { IfOk result (λ table.
        length table.items ≡ ordered.now.flat.inputs + length ordered.now.flat.cells) }
    ensures depths { IfOk result (λ table. (net : ℕ)
        → slice_index table.items net ≡ depth ordered.now.flat chip_of.now net) }
{
    depths_follow_drivers();
    depths_are_small();
    let flat = ordered.flat();
    let nets = flat.inputs() as usize + flat.cells().len();
    let mut table = vec![in alloc; 0; nets]?;
    for number in ordered.order() {
        let net = flat.inputs() + *number;
        let depth = depth_of_cell(flat, chip_of, table.as_slice(), *number, net);
        table[net as usize] = depth;
    }
    Ok(table)
}

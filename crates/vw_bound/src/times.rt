//! When nets can be at nodes, by a table of when they can have their values at their own.
ghost use Rattle.std.specs.Prelude.{◌≡◌, ◌≤◌, ◌<◌, ◌^◌, map, slice_index};
ghost use Rattle.vw_net.specs.Lists.{greatest};
ghost use Rattle.vw_bound.specs.Given.{design_in};
ghost use Rattle.vw_bound.specs.PlacedDesigns.{home_in};
ghost use Rattle.vw_bound.specs.Tables.{AreLow};
ghost use Rattle.vw_bound.specs.Times.{read_by, settling, there_by};

use crate::placed::Placed;
use vw_net::Cell;

/// The node of a net.
pub fn home(placed: &Placed, net: u32) -> u32
    ensures value { result ≡ home_in (design_in placed.now) net }
    ensures node { result ≤ placed.now.board.now.chips }
{
    let inputs = placed.ordered.flat().inputs();
    if net < inputs {
        return 0;
    }
    match placed.chip_of.get((net - inputs) as usize) {
        Some(chip) => *chip,
        None => 0,
    }
}

/// How many microcycles a net takes to settle.
fn settling(placed: &Placed, net: u32) -> u32
    ensures value { result ≡ settling (design_in placed.now) net }
    ensures low { result ≤ 15 }
{
    let flat = placed.ordered.flat();
    if net < flat.inputs() {
        return 0;
    }
    match flat.cells().get((net - flat.inputs()) as usize) {
        Some(Cell::Gate { .. }) => placed.board.settle(),
        Some(Cell::Latch { .. }) => 0,
        None => 0,
    }
}

/// The number of a net in a table; 0 past its end.
fn in_table(table: &[u64], net: u32) -> u64
    requires { AreLow table.now }
    ensures value { result ≡ slice_index table.now net }
    ensures low { result ≤ 2 ^ 62 }
{
    match table.get(net as usize) {
        Some(time) => *time,
        None => 0,
    }
}

/// When a net can be at a node: it settles at its own, and goes the quickest way.
pub fn there(placed: &Placed, table: &[u64], net: u32, node: u32) -> u64
    requires node { node ≤ placed.now.board.now.chips }
    requires low { AreLow table.now }
    ensures value { result ≡ there_by (design_in placed.now) (slice_index table.now) net node }
    ensures low { result < 2 ^ 63 }
{
    let way = placed.delays.delay(home(placed, net), node);
    in_table(table, net) + u64::from(settling(placed, net)) + u64::from(way)
}

/// When a gate of a node can read a net: gates of one node settle together.
pub fn read(placed: &Placed, table: &[u64], node: u32, net: u32) -> u64
    requires node { node ≤ placed.now.board.now.chips }
    requires low { AreLow table.now }
    ensures { result ≡ read_by (design_in placed.now) (slice_index table.now) node net }
{
    if home(placed, net) == node {
        in_table(table, net)
    } else {
        there(placed, table, net, node)
    }
}

/// The last of some nets that a gate of a node reads.
pub fn last_read(placed: &Placed, table: &[u64], node: u32, nets: &[u32]) -> u64
    requires node { node ≤ placed.now.board.now.chips }
    requires low { AreLow table.now }
    ensures { result
        ≡ greatest (map (read_by (design_in placed.now) (slice_index table.now) node) nets.now) }
{
    let mut last = 0;
    for net in nets {
        last = last.max(read(placed, table, node, *net));
    }
    last
}

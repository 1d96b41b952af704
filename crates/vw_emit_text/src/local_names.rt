//! What nets are called at nodes.
ghost use Rattle.std.specs.Prelude.{◌≡◌};
ghost use Rattle.vw_emit_hardware.specs.Names.{brought_name, name_at, own_name};
ghost use Rattle.vw_plan.specs.PlannedBoard.{home};
ghost use Rattle.vw_emit_text.specs.Steps.{last_held, last_hop, local_of, local_sent, planned_by};

use crate::emitter::Emitter;
use crate::names::Name;
use crate::numbered_hop::NumberedHop;
use vw_net::{Cell, Flat};
use vw_plan::Wire;

/// The name of a net at its own node.
fn own_name(flat: &Flat, net: u32) -> Name
    ensures { local_of result ≡ own_name flat.now net }
{
    if net < flat.inputs() {
        return Name::Column(u64::from(net));
    }
    let cell = net - flat.inputs();
    match flat.cells().get(cell as usize) {
        Some(Cell::Gate { .. }) => Name::Gate(u64::from(cell)),
        Some(Cell::Latch { .. }) => Name::Kept(u64::from(cell)),
        None => Name::Gate(u64::from(cell)),
    }
}

/// The node of a net.
fn home(emitter: &Emitter, net: u32) -> u32
    ensures { result ≡ home (planned_by emitter.now) net }
{
    let inputs = emitter.ordered.flat().inputs();
    if net < inputs {
        return 0;
    }
    match emitter.plan.chip_of().get((net - inputs) as usize) {
        Some(chip) => *chip,
        None => 0,
    }
}

/// The number of the last hop of a wire.
fn last_hop(wires: &[Wire], number: usize) -> u64
    ensures { result ≡ last_hop wires.now number }
{
    match wires.get(number) {
        Some(wire) => (wire.hops().len() as u64).saturating_sub(1),
        None => 0,
    }
}

/// The register of the last hop of a wire, where there is one.
fn last_held(wires: &[Wire], found: Option<usize>) -> Name
    ensures { local_of result ≡ last_held found wires.now }
{
    match found {
        Some(number) => Name::Held(number as u64, last_hop(wires, number)),
        None => Name::Held(0, 0),
    }
}

/// The name of a net at a node that a wire brings it to.
fn brought_name(emitter: &Emitter, node: u32, net: u32) -> Name
    ensures { local_of result ≡ brought_name (planned_by emitter.now) node net }
{
    last_held(emitter.plan.wires(), emitter.wires.first(net, node))
}

/// The name of a net at a node.
pub(crate) fn name_at(emitter: &Emitter, node: u32, net: u32) -> Name
    ensures { local_of result ≡ name_at (planned_by emitter.now) node net }
{
    if home(emitter, net) == node {
        own_name(emitter.ordered.flat(), net)
    } else {
        brought_name(emitter, node, net)
    }
}

/// The name of what a hop sends, at the node that it leaves.
pub(crate) fn sent_name(emitter: &Emitter, hop: &NumberedHop) -> Name
    ensures { local_of result ≡ local_sent (planned_by emitter.now) hop.now }
{
    if hop.hop == 0 {
        name_at(emitter, hop.from, hop.net)
    } else {
        Name::Held(hop.wire, hop.hop - 1)
    }
}

//! Which gates a gate reads.
ghost use Rattle.std.specs.Prelude.{◌≡◌, slice_get};
ghost use Rattle.vw_net.specs.Order.{is_gate, gate_inputs};
ghost use Rattle.vw_order.specs.Steps.Gates.{gate_of};

use vw_net::{Cell, Flat};

/// Whether a gate has this cell number.
pub fn is_gate(flat: &Flat, number: u32) -> bool
    ensures { result ≡ is_gate (slice_get flat.now.cells number) }
{
    match flat.cells().get(number as usize) {
        Some(Cell::Gate { .. }) => true,
        Some(Cell::Latch { .. }) | None => false,
    }
}

/// The nets that the gate of a cell number reads; none where that is a latch.
pub fn gate_inputs(flat: &Flat, number: u32) -> &[u32]
    ensures { result.now ≡ gate_inputs (slice_get flat.now.cells number) }
{
    match flat.cells().get(number as usize) {
        Some(Cell::Gate { ins, .. }) => ins.as_slice(),
        Some(Cell::Latch { .. }) | None => &[],
    }
}

/// The cell number of the gate that drives a net; nothing where an input or a latch does.
pub fn gate_of(flat: &Flat, net: u32) -> Option<u32>
    ensures { result ≡ gate_of flat.now.inputs flat.now.cells net }
{
    if net < flat.inputs() {
        return None;
    }
    let number = net - flat.inputs();
    if is_gate(flat, number) {
        Some(number)
    } else {
        None
    }
}

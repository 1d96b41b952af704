//! A planned board as a text, within the limits of designs.
ghost use Rattle.std.specs.Prelude.{◌≡◌, ◌<◌, ◌^◌, IfOk, IfErr};
ghost use Rattle.vw_plan.specs.PlannedBoard.{planned_board};
ghost use Rattle.vw_emit_text.specs.Emitted.{FitsDesigns, IsEmitFault, emitted_cells, emitted_outputs, emitted_text, pin_cells};
ghost use Rattle.vw_emit_text.specs.Steps.{outlet_cells, planned_by};

use crate::emitter::Emitter;
use crate::fault::EmitFault;
use crate::models::{latch_count, push_board, push_nodes};
use crate::numbered_hop::numbered_hops;
use crate::outlet::{Outlet, outlets};
use std::alloc::{AllocError, Global};
use vw_net::{MOST_CELLS, MOST_DESIGN_OUTPUTS};
use vw_plan::Checked;
use vw_ready::{LinkTable, wire_table};
use vw_text::MOST_DESIGN_BYTES;

/// The cells of the pins, counted at the first hop of each.
fn outlet_cells(outlets: &[Outlet]) -> u128
    ensures value { result ≡ outlet_cells outlets.now }
    ensures low { result < 2 ^ 124 }
{
    let mut cells = 0u128;
    for outlet in outlets {
        if outlet.number == 0 {
            cells += u128::from(outlet.hop.arrival.saturating_sub(outlet.hop.at)) + 1;
        }
    }
    cells
}

/// The cells of the pins: one for each used pin and microcycle of its link's delay.
fn pin_cells(emitter: &Emitter) -> u128
    ensures value { result ≡ pin_cells (planned_by emitter.now) }
    ensures low { result < 2 ^ 124 }
{
    outlet_cells(emitter.outlets)
}

/// The number of cells of the emitted board.
fn emitted_cells(emitter: &Emitter) -> u128
    ensures { result ≡ emitted_cells (planned_by emitter.now) }
{
    let flat = emitter.ordered.flat();
    let nodes = u128::from(emitter.board.chips()) + 1;
    let stages = u128::from(emitter.plan.period()) + 1;
    let cells = flat.cells().len() as u128;
    let latches = u128::from(latch_count(flat.cells()));
    let hops = u128::from(emitter.plan.hops());
    let outputs = flat.outputs().len() as u128;
    nodes * stages + (cells + latches) + 3 * hops + pin_cells(emitter) + outputs
}

/// The number of outputs of the emitted board.
fn emitted_outputs(emitter: &Emitter) -> u64
    ensures { result ≡ emitted_outputs (planned_by emitter.now) }
{
    let flat = emitter.ordered.flat();
    flat.outputs().len() as u64 + u64::from(latch_count(flat.cells()))
}

/// The whole text.
fn text_of(alloc: Global, emitter: &Emitter) -> Result<Vec<u8>, AllocError>
    ensures { IfOk result (λ text. text.items ≡ emitted_text (planned_by emitter.now)) }
{
    let mut text = Vec::new(alloc);
    push_board(&mut text, emitter)?;
    push_nodes(&mut text, emitter)?;
    Ok(text)
}

/// The text, where it is within the limits.
fn within_limits(alloc: Global, emitter: &Emitter) -> Result<Vec<u8>, EmitFault>
    ensures text { IfOk result (λ text. text.items ≡ emitted_text (planned_by emitter.now)) }
    ensures fits { IfOk result (λ text. FitsDesigns (planned_by emitter.now)) }
    ensures fault { IfErr result (IsEmitFault (planned_by emitter.now)) }
{
    let cells = emitted_cells(emitter);
    if cells > u128::from(MOST_CELLS) {
        return Err(EmitFault::TooManyCells(cells));
    }
    let outputs = emitted_outputs(emitter);
    if outputs > u64::from(MOST_DESIGN_OUTPUTS) {
        return Err(EmitFault::TooManyOutputs(outputs));
    }
    let text = text_of(alloc, emitter)?;
    let bytes = text.len() as u128;
    if bytes > MOST_DESIGN_BYTES as u128 {
        return Err(EmitFault::TooLong(bytes));
    }
    Ok(text)
}

/// The planned board as a design in BLIF: a model of the board, which places a model of each node. Each node has a sequencer that
/// counts the microcycles, its cells, a register for each hop that reaches it and, for each pin that leaves it, what chooses
/// the bit. The text is within the limits of designs and their texts; a fault is the first of these that it is above.
pub fn emit(alloc: Global, checked: &Checked) -> Result<Vec<u8>, EmitFault>
    ensures text { IfOk result (λ text. text.items ≡ emitted_text
        (planned_board checked.now.ordered checked.now.board checked.now.plan)) }
    ensures fits { IfOk result (λ text. FitsDesigns
        (planned_board checked.now.ordered checked.now.board checked.now.plan)) }
    ensures fault { IfErr result (IsEmitFault
        (planned_board checked.now.ordered checked.now.board checked.now.plan)) }
{
    let wires = wire_table(alloc, checked.plan())?;
    let links = LinkTable::of(alloc, checked.board())?;
    let hops = numbered_hops(alloc, &links, checked.plan().wires())?;
    let by_pins = outlets(alloc, hops.as_slice())?;
    let emitter = Emitter {
        ordered: checked.ordered(),
        board: checked.board(),
        plan: checked.plan(),
        wires: &wires,
        hops: hops.as_slice(),
        outlets: by_pins.as_slice(),
    };
    within_limits(alloc, &emitter)
}

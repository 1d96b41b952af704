//! The sequencer of a node, its cells, its registers, and the outputs.
ghost use Rattle.std.specs.Prelude.{◌≡◌, ◌≤◌, ◌++◌, ◌∷◌, ◌^◌, map, OnOk};
ghost use Rattle.vw_emit_hardware.specs.Items.{gate_items, latch_items, sequencer};
ghost use Rattle.vw_emit_hardware.specs.Locals.{gate};
ghost use Rattle.vw_emit_hardware.specs.Names.{name_at};
ghost use Rattle.vw_emit_hardware.specs.Tables.{cover_table};
ghost use Rattle.vw_emit_names.specs.Spelled.{spelled};
ghost use Rattle.vw_emit_text.specs.Steps.{caught_items, item_text, items_text, names_text, of_cells, planned_by, registers, results_from, stages_from};

use crate::emitter::Emitter;
use crate::items::{Item, push_item};
use crate::local_names::name_at;
use crate::names::{Name, push_name};
use crate::numbered_hop::NumberedHop;
use crate::ports::chip_at;
use crate::rows::push_cover;
use std::alloc::AllocError;
use vw_net::{Cell, Cover, Init};

/// Appends so many stages of a sequencer, each of which reads the one before it.
fn push_stages(text: &mut Vec<u8>, period: u64) -> Result<(), AllocError>
    requires { period ≤ 2 ^ 62 }
    ensures { OnOk result (text.new.items ≡ text.old.items ++ items_text (stages_from 0 period)) }
{
    for before in 0..period {
        let (from, to) = (Name::Moment(before), Name::Moment(before + 1));
        push_item(text, Item::Register(from, to, Init::Zero))?;
    }
    Ok(())
}

/// Appends the lines of a sequencer.
pub(crate) fn push_sequencer(text: &mut Vec<u8>, period: u64) -> Result<(), AllocError>
    requires { period ≤ 2 ^ 62 }
    ensures { OnOk result (text.new.items ≡ text.old.items ++ items_text (sequencer period)) }
{
    let (from, to) = (Name::Moment(period), Name::Moment(0));
    push_item(text, Item::Register(from, to, Init::One))?;
    push_stages(text, period)?;
    Ok(())
}

/// Appends, behind a space, the name of a net at a node.
fn push_local(text: &mut Vec<u8>, emitter: &Emitter, node: u32, net: u32) -> Result<(), AllocError>
    ensures { OnOk result (text.new.items
        ≡ text.old.items ++ 32 ∷ spelled (name_at (planned_by emitter.now) node net)) }
{
    push_name(text, b' ', name_at(emitter, node, net))
}

/// Appends the names of nets at a node, each behind a space.
fn push_locals(
    text: &mut Vec<u8>,
    emitter: &Emitter,
    node: u32,
    nets: &[u32],
) -> Result<(), AllocError>
    ensures { OnOk result (text.new.items
        ≡ text.old.items ++ names_text (planned_by emitter.now) node nets.now) }
{
    for net in nets {
        push_local(text, emitter, node, *net)?;
    }
    Ok(())
}

/// Appends the table of a gate.
fn push_gate_table(
    text: &mut Vec<u8>,
    emitter: &Emitter,
    node: u32,
    number: u64,
    ins: &[u32],
    cover: &Cover,
) -> Result<(), AllocError>
    ensures { OnOk result (text.new.items ≡ text.old.items
        ++ item_text (cover_table (map (name_at (planned_by emitter.now) node) ins.now) (gate number) cover.now)) }
{
    text.extend_from_slice(b".names")?;
    push_locals(text, emitter, node, ins)?;
    push_name(text, b' ', Name::Gate(number))?;
    text.push(b'\n')?;
    push_cover(text, cover)?;
    Ok(())
}

/// Appends the lines of a gate.
fn push_gate(
    text: &mut Vec<u8>,
    emitter: &Emitter,
    node: u32,
    number: usize,
    cell: &Cell,
) -> Result<(), AllocError>
    ensures { OnOk result (text.new.items
        ≡ text.old.items ++ items_text (gate_items (planned_by emitter.now) node number cell.now)) }
{
    match cell {
        Cell::Gate { ins, cover } => {
            push_gate_table(text, emitter, node, number as u64, ins.as_slice(), cover)
        }
        Cell::Latch { .. } => Ok(()),
    }
}

/// Appends the lines of the gates of a node.
pub(crate) fn push_gates(
    text: &mut Vec<u8>,
    emitter: &Emitter,
    node: u32,
    cells: &[Cell],
) -> Result<(), AllocError>
    ensures { OnOk result (text.new.items ≡ text.old.items
        ++ items_text (of_cells (gate_items (planned_by emitter.now) node) emitter.now.plan.now.chip_of node 0 cells.now)) }
{
    for (number, cell) in cells.iter().enumerate() {
        if chip_at(emitter.plan.chip_of(), number) == node {
            push_gate(text, emitter, node, number, cell)?;
        }
    }
    Ok(())
}

/// Appends the lines of a latch.
fn push_latch(
    text: &mut Vec<u8>,
    emitter: &Emitter,
    node: u32,
    number: usize,
    cell: &Cell,
) -> Result<(), AllocError>
    ensures { OnOk result (text.new.items
        ≡ text.old.items ++ items_text (latch_items (planned_by emitter.now) node number cell.now)) }
{
    match cell {
        Cell::Gate { .. } => Ok(()),
        Cell::Latch { d, init } => {
            let (own, next) = (Name::Kept(number as u64), Name::Coming(number as u64));
            let last = Name::Moment(emitter.plan.period());
            let from = name_at(emitter, node, *d);
            push_item(text, Item::Choice(last, from, own, next))?;
            push_item(text, Item::Register(next, own, *init))
        }
    }
}

/// Appends the lines of the latches of a node.
pub(crate) fn push_latches(
    text: &mut Vec<u8>,
    emitter: &Emitter,
    node: u32,
    cells: &[Cell],
) -> Result<(), AllocError>
    ensures { OnOk result (text.new.items ≡ text.old.items
        ++ items_text (of_cells (latch_items (planned_by emitter.now) node) emitter.now.plan.now.chip_of node 0 cells.now)) }
{
    for (number, cell) in cells.iter().enumerate() {
        if chip_at(emitter.plan.chip_of(), number) == node {
            push_latch(text, emitter, node, number, cell)?;
        }
    }
    Ok(())
}

/// Appends the lines of the register of a hop: it takes the pin's bit in the microcycle of the arrival.
fn push_register(text: &mut Vec<u8>, hop: &NumberedHop) -> Result<(), AllocError>
    ensures { OnOk result (text.new.items ≡ text.old.items ++ items_text (caught_items hop.now)) }
{
    let pin = Name::PinIn(u64::from(hop.link), u64::from(hop.pin));
    let own = Name::Held(hop.wire, hop.hop);
    let next = Name::Caught(hop.wire, hop.hop);
    push_item(
        text,
        Item::Choice(Name::Moment(hop.arrival), pin, own, next),
    )?;
    push_item(text, Item::Register(next, own, Init::Zero))
}

/// Appends the lines of the registers of a node.
pub(crate) fn push_registers(
    text: &mut Vec<u8>,
    node: u32,
    hops: &[NumberedHop],
) -> Result<(), AllocError>
    ensures { OnOk result (text.new.items
        ≡ text.old.items ++ items_text (registers node hops.now)) }
{
    for hop in hops {
        if hop.to == node {
            push_register(text, hop)?;
        }
    }
    Ok(())
}

/// Appends the lines of the outputs.
pub(crate) fn push_results(
    text: &mut Vec<u8>,
    emitter: &Emitter,
    nets: &[u32],
) -> Result<(), AllocError>
    ensures { OnOk result (text.new.items
        ≡ text.old.items ++ items_text (results_from (planned_by emitter.now) 0 nets.now)) }
{
    for (number, net) in nets.iter().enumerate() {
        let from = name_at(emitter, 0, *net);
        push_item(text, Item::Pass(from, Name::Output(number as u64)))?;
    }
    Ok(())
}

//! The form in which the actions of nodes run.
ghost use Rattle.std.specs.Prelude.{◌≡◌, ◌+◌, ◌-◌, ◌^◌, ◌==◌, ◌++◌, ◌∷◌, [], length, min, slice_get, IfOk, OnOk};
ghost use Rattle.vw_prog.specs.declared.code.Op.TheVariants.{Run, Wide};
ghost use Rattle.vw_prog.specs.Coding.{all_gates, all_loops, all_ops, all_wide, action_gates, action_loops, action_op, action_wide, cell_gates, cell_op, cell_wide, joined_op, joined_ops, program_of, read_at, slot_in, table_gate, wide_gate};
ghost use Rattle.vw_prog.specs.Actions.{action_of};

use crate::action::Action;
use crate::code::{Op, WideGate};
use crate::entry::Entry;
use crate::gates::PaddedGate;
use crate::naming::{slot_at, slots_at};
use crate::shift::{LoopNet, ShiftLoop, keep_net};
use std::alloc::{AllocError, Global};
use vw_net::{Cell, Flat, Sequence, TRUTH_TABLE_INPUTS};

/// The action of an entry, in a netlist with so many inputs.
fn action_of(inputs: u32, entry: &Entry) -> Action
    ensures { result ≡ action_of inputs entry.now }
{
    match entry.moment % 3 {
        0 => Action::Evaluate(entry.net.saturating_sub(inputs)),
        1 => Action::Send {
            link: entry.link,
            pin: entry.place,
            net: entry.net,
        },
        _ => Action::Take {
            link: entry.link,
            pin: entry.place,
            net: entry.net,
        },
    }
}

/// The actions of entries, and then a step.
pub fn program_of(alloc: Global, inputs: u32, entries: &[Entry]) -> Result<Vec<Action>, AllocError>
    ensures { IfOk result (λ actions. actions.items ≡ program_of inputs entries.now) }
{
    let mut actions = Vec::new(alloc);
    for entry in entries {
        actions.push(action_of(inputs, entry))?;
    }
    actions.push(Action::Step)?;
    Ok(actions)
}

/// The slot of the net at a place, and any slot where there is none.
fn read_at(table: &[u32], ins: &[u32], place: usize) -> u32
    ensures { result ≡ read_at table.now (slice_get ins.now place) }
{
    match ins.get(place) {
        Some(net) => slot_at(table, *net),
        None => 0,
    }
}

/// A gate of at most six inputs.
fn table_gate(table: &[u32], ins: &[u32], inputs: u32, truth_table: u64) -> PaddedGate
    ensures { result ≡ table_gate table.now ins.now inputs truth_table }
{
    PaddedGate {
        reads: [
            read_at(table, ins, 0),
            read_at(table, ins, 1),
            read_at(table, ins, 2),
            read_at(table, ins, 3),
            read_at(table, ins, 4),
            read_at(table, ins, 5),
        ],
        inputs,
        truth_table,
    }
}

/// A wider gate, with its cell number and the net that it drives.
fn wide_gate(
    alloc: Global,
    table: &[u32],
    number: u32,
    net: u32,
    ins: &[u32],
) -> Result<WideGate, AllocError>
    ensures { IfOk result (λ gate. gate ≡ wide_gate table.now number net ins.now) }
{
    Ok(WideGate {
        number,
        reads: Sequence::of(slots_at(alloc, table, ins)?),
        target: slot_at(table, net),
    })
}

/// Keeps a gate of at most six inputs, and gives the op that works it out into a slot.
fn keep_table_gate(
    gates: &mut Vec<PaddedGate>,
    gate: PaddedGate,
    slot: u32,
) -> Result<Op, AllocError>
    ensures one { IfOk result (λ one. one
        ≡ Run (length gates.old.items) (length gates.old.items + 1) slot) }
    ensures gates { OnOk result (gates.new.items ≡ gates.old.items ++ gate ∷ []) }
{
    let first = gates.len();
    gates.push(gate)?;
    Ok(Op::Run {
        first,
        end: first + 1,
        slot,
    })
}

/// Keeps a wider gate, and gives the op that works it out.
fn keep_wide_gate(wide: &mut Vec<WideGate>, gate: WideGate) -> Result<Op, AllocError>
    ensures one { IfOk result (λ one. one ≡ Wide (length wide.old.items)) }
    ensures wide { OnOk result (wide.new.items ≡ wide.old.items ++ gate ∷ []) }
{
    let place = wide.len();
    wide.push(gate)?;
    Ok(Op::Wide(place))
}

/// Keeps the gate with a cell number, and gives the op that works it out.
fn cell_op(
    alloc: Global,
    flat: &Flat,
    table: &[u32],
    number: u32,
    gates: &mut Vec<PaddedGate>,
    wide: &mut Vec<WideGate>,
) -> Result<Op, AllocError>
    ensures one { IfOk result (λ one. one
        ≡ cell_op (slot_in table.now (min (flat.now.inputs + number) (2 ^ 32 - 1)))
        (length gates.old.items) (length wide.old.items) (slice_get flat.now.cells number)) }
    ensures gates { OnOk result (gates.new.items ≡ gates.old.items
        ++ cell_gates flat.now.inputs table.now number (slice_get flat.now.cells number)) }
    ensures wide { OnOk result (wide.new.items ≡ wide.old.items
        ++ cell_wide flat.now.inputs table.now number (slice_get flat.now.cells number)) }
{
    match flat.cells().get(number as usize) {
        Some(Cell::Gate { ins, cover }) => {
            let net = flat.inputs() + number;
            if cover.inputs() <= TRUTH_TABLE_INPUTS {
                let inputs = cover.inputs();
                let gate = table_gate(table, ins.as_slice(), inputs, cover.truth_table());
                let one = keep_table_gate(gates, gate, slot_at(table, net))?;
                return Ok(one);
            }
            let gate = wide_gate(alloc, table, number, net, ins.as_slice())?;
            let one = keep_wide_gate(wide, gate)?;
            Ok(one)
        }
        Some(Cell::Latch { .. }) => Ok(Op::Step),
        None => Ok(Op::Step),
    }
}

/// What stands for the actions of a node: its ops, its shift loops and its gates.
#[derive(Drop)]
pub struct Parts {
    pub ops: Vec<Op>,
    pub loops: Vec<ShiftLoop>,
    pub gates: Vec<PaddedGate>,
    pub wide: Vec<WideGate>,
}

/// Keeps the gate of an action, or the net that it sends, and gives the op for it.
fn action_op(
    alloc: Global,
    flat: &Flat,
    table: &[u32],
    action: &Action,
    parts: &mut Parts,
) -> Result<Op, AllocError>
    ensures one { IfOk result (λ one. one ≡ action_op flat.now table.now (length parts.old.gates.items)
        (length parts.old.wide.items) parts.old.loops.items action.now) }
    ensures ops { OnOk result (parts.new.ops ≡ parts.old.ops) }
    ensures loops { OnOk result (parts.new.loops.items
        ≡ action_loops table.now action.now parts.old.loops.items) }
    ensures gates { OnOk result (parts.new.gates.items
        ≡ parts.old.gates.items ++ action_gates flat.now table.now action.now) }
    ensures wide { OnOk result (parts.new.wide.items
        ≡ parts.old.wide.items ++ action_wide flat.now table.now action.now) }
{
    match *action {
        Action::Evaluate(number) => {
            let one = cell_op(
                alloc,
                flat,
                table,
                number,
                &mut parts.gates,
                &mut parts.wide,
            )?;
            Ok(one)
        }
        Action::Send { link, pin, net } => {
            let slot = slot_at(table, net);
            let place = keep_net(alloc, link, pin, LoopNet { net, slot }, &mut parts.loops)?;
            Ok(Op::Send(place))
        }
        Action::Take { link, pin, net } => Ok(Op::Take {
            link,
            pin,
            slot: slot_at(table, net),
        }),
        Action::Step => Ok(Op::Step),
    }
}

/// Whether a slot is the one behind another.
fn follows(slot: u32, its: u32) -> bool
    ensures { result ≡ (its == slot + 1) }
{
    match slot.checked_add(1) {
        Some(next) => its == next,
        None => false,
    }
}

/// An op, where another one comes next: a run goes on with the next run.
fn joined_op(one: Op, next: Option<Op>) -> Op
    ensures { result ≡ joined_op one next }
{
    match next {
        Some(
            Op::Run {
                first: next,
                end: last,
                slot: its,
            },
        ) => match one {
            Op::Run { first, end, slot } => {
                if next == end && follows(slot, its) {
                    Op::Run {
                        first,
                        end: last,
                        slot,
                    }
                } else {
                    one
                }
            }
            _ => one,
        },
        _ => one,
    }
}

/// Joins the runs of ops.
fn join_ops(ops: &mut [Op])
    ensures { ops.new ≡ joined_ops ops.old }
{
    for place in (0..ops.len()).rev() {
        let next = ops.get(place + 1).copied();
        ops[place] = joined_op(ops[place], next);
    }
}

/// The ops, the shift loops and the gates of actions, by a table of slots.
pub fn parts_of(
    alloc: Global,
    flat: &Flat,
    table: &[u32],
    actions: &[Action],
) -> Result<Parts, AllocError>
    ensures ops { IfOk result (λ parts. parts.ops.items
        ≡ joined_ops (all_ops flat.now table.now 0 0 [] actions.now)) }
    ensures loops { IfOk result (λ parts. parts.loops.items ≡ all_loops table.now [] actions.now) }
    ensures gates { IfOk result (λ parts. parts.gates.items
        ≡ all_gates flat.now table.now actions.now) }
    ensures wide { IfOk result (λ parts. parts.wide.items
        ≡ all_wide flat.now table.now actions.now) }
{
    let mut parts = Parts {
        ops: Vec::new(alloc),
        loops: Vec::new(alloc),
        gates: Vec::new(alloc),
        wide: Vec::new(alloc),
    };
    for action in actions {
        let one = action_op(alloc, flat, table, action, &mut parts)?;
        parts.ops.push(one)?;
    }
    join_ops(&mut parts.ops);
    Ok(parts)
}

//! The codes of nodes.
ghost use Rattle.std.specs.Prelude.{◌≡◌, ◌<◌, ◌^◌, ◌++◌, ◌==◌, ℕ, suc, [], length, map, slice_get, slice_index_or, Some, if◌then◌else◌, IfOk, OnOk};
ghost use Rattle.std.specs.List.{range_with_len};
ghost use Rattle.vw_plan.specs.PlannedBoard.{planned_board};
ghost use Rattle.vw_prog.specs.declared.code.Code.{Code};
ghost use Rattle.vw_prog.specs.Actions.{actions};
ghost use Rattle.vw_prog.specs.Codes.{IsCode};
ghost use Rattle.vw_prog.specs.Coding.{IsCodeOf, IsTable, known_nets, no_slot, owned_of, record_slots, slot_in};
ghost use Rattle.vw_prog.specs.Steps.{lists_of};
ghost use Rattle.vw_prog.specs.Timetable.{entries_at, timetable};

use crate::action::Action;
use crate::code::Code;
use crate::coding::{parts_of, program_of};
use crate::entry::Entry;
use crate::gates::gates_of;
use crate::naming::{
    NO_SLOT, clear, list_gates, list_inputs, list_latches, list_takes, name_all, slot_at, slots_at,
};
use crate::owners::{OwnLatch, owned_latches};
use std::alloc::{AllocError, Global};
use vw_net::Flat;
use vw_plan::Checked;

/// Lists the nets of inputs, where the node is the host.
fn list_own_inputs(inputs: u32, node: u32, list: &mut Vec<u32>) -> Result<(), AllocError>
    ensures { OnOk result (list.new.items
        ≡ list.old.items ++ (if node == 0 then range_with_len 0 inputs else [])) }
{
    if node == 0 {
        list_inputs(inputs, list)?;
    }
    Ok(())
}

/// The nets that a node knows: the inputs where it is the host, its latches, its gates in order, and what it takes.
fn known_nets(
    alloc: Global,
    inputs: u32,
    node: u32,
    own: &[OwnLatch],
    actions: &[Action],
) -> Result<Vec<u32>, AllocError>
    ensures { IfOk result (λ list. list.items ≡ known_nets inputs node own.now actions.now) }
{
    let mut list = Vec::new(alloc);
    list_own_inputs(inputs, node, &mut list)?;
    list_latches(own, &mut list)?;
    list_gates(inputs, actions, &mut list)?;
    list_takes(actions, &mut list)?;
    Ok(list)
}

/// The slots of latches.
fn latch_slots(alloc: Global, table: &[u32], own: &[OwnLatch]) -> Result<Vec<u32>, AllocError>
    ensures { IfOk result (λ slots. slots.items
        ≡ map (λ latch. slot_in table.now latch.net) own.now) }
{
    let mut slots = Vec::new(alloc);
    for latch in own {
        slots.push(slot_at(table, latch.net))?;
    }
    Ok(slots)
}

/// The slots of the nets that latches take.
fn taken_slots(alloc: Global, table: &[u32], own: &[OwnLatch]) -> Result<Vec<u32>, AllocError>
    ensures { IfOk result (λ slots. slots.items
        ≡ map (λ latch. slot_in table.now latch.taken) own.now) }
{
    let mut slots = Vec::new(alloc);
    for latch in own {
        slots.push(slot_at(table, latch.taken))?;
    }
    Ok(slots)
}

/// The numbers of latches.
fn latch_numbers(alloc: Global, own: &[OwnLatch]) -> Result<Vec<u32>, AllocError>
    ensures { IfOk result (λ numbers. numbers.items ≡ map (λ latch. latch.number) own.now) }
{
    let mut numbers = Vec::new(alloc);
    for latch in own {
        numbers.push(latch.number)?;
    }
    Ok(numbers)
}

/// The slots of what a node records: of the outputs where it is the host, else of its latches.
fn record_slots(
    alloc: Global,
    flat: &Flat,
    node: u32,
    own: &[OwnLatch],
    table: &[u32],
) -> Result<Vec<u32>, AllocError>
    ensures { IfOk result (λ slots. slots.items ≡ record_slots flat.now node own.now table.now) }
{
    if node != 0 {
        return latch_slots(alloc, table, own);
    }
    slots_at(alloc, table, flat.outputs())
}

/// The code of a node with these latches and entries. The table has no slots, before it and after it.
fn code_of(
    alloc: Global,
    flat: &Flat,
    node: u32,
    own: &[OwnLatch],
    entries: &[Entry],
    table: &mut [u32],
) -> Result<Code, AllocError>
    requires is { IsTable [] table.old }
    requires few { length table.old < no_slot }
    ensures long { length table.new ≡ length table.old }
    ensures is { OnOk result (IsTable [] table.new) }
    ensures made { IfOk result
        (IsCodeOf flat.now node own.now entries.now (length table.old)) }
{
    let actions = program_of(alloc, flat.inputs(), entries)?;
    let known = known_nets(alloc, flat.inputs(), node, own, &actions)?;
    let mut nets = Vec::new(alloc);
    name_all(&known, &mut nets, table)?;
    let parts = parts_of(alloc, flat, table, &actions)?;
    let gates = gates_of(alloc, &parts.gates)?;
    let records = record_slots(alloc, flat, node, own, table)?;
    let latches = latch_slots(alloc, table, own)?;
    let inputs = taken_slots(alloc, table, own)?;
    let numbers = latch_numbers(alloc, own)?;
    clear(&nets, table);
    Ok(Code {
        ops: parts.ops,
        loops: parts.loops,
        gates,
        wide: parts.wide,
        nets,
        records,
        latches,
        inputs,
        numbers,
    })
}

/// The code of each node, by the latches and the entries of each.
fn all_codes(
    alloc: Global,
    flat: &Flat,
    owned: &[Vec<OwnLatch>],
    lists: &[Vec<Entry>],
    table: &mut [u32],
) -> Result<Vec<Code>, AllocError>
    requires same { length owned.now ≡ length lists.now }
    requires nodes { length lists.now < 2 ^ 32 }
    requires is { IsTable [] table.old }
    requires few { length table.old < no_slot }
    ensures count { IfOk result (λ codes. length codes.items ≡ length lists.now) }
    ensures each { IfOk result (λ codes. (node : ℕ) (code : Code)
        → slice_get codes.items node ≡ Some code
        → IsCodeOf flat.now node (slice_index_or (owned_of owned.now) node [])
        (slice_index_or (lists_of lists.now) node []) (length table.old) code) }
{
    let mut codes = Vec::new(alloc);
    for node in 0..lists.len() {
        let own = owned[node].as_slice();
        let entries = lists[node].as_slice();
        let code = code_of(alloc, flat, node as u32, own, entries, table)?;
        codes.push(code)?;
    }
    Ok(codes)
}

/// The code of each node, by the entries of each.
pub fn codes_of(
    alloc: Global,
    checked: &Checked,
    lists: &[Vec<Entry>],
) -> Result<Vec<Code>, AllocError>
    requires count { length lists.now ≡ suc checked.now.board.chips }
    requires each { (node : ℕ) → node < suc checked.now.board.chips
        → slice_index_or (lists_of lists.now) node []
        ≡ entries_at node
        (timetable (planned_board checked.now.ordered checked.now.board checked.now.plan)) }
    ensures count { IfOk result (λ codes. length codes.items ≡ suc checked.now.board.chips) }
    ensures each { IfOk result (λ codes. (node : ℕ) (code : Code)
        → slice_get codes.items node ≡ Some code
        → IsCode (planned_board checked.now.ordered checked.now.board checked.now.plan) node
        (actions (planned_board checked.now.ordered checked.now.board checked.now.plan) node) code) }
{
    let flat = checked.ordered().flat();
    let owned = owned_latches(alloc, checked)?;
    let mut table = vec![in alloc; NO_SLOT; flat.inputs() as usize + flat.cells().len()]?;
    let codes = all_codes(alloc, flat, &owned, lists, &mut table)?;
    Ok(codes)
}

//! The slots of nets.
ghost use Rattle.std.specs.Prelude.{◌≡◌, ◌<◌, ◌++◌, ◌==◌, ◌&&◌, [], length, map, nat_lt, IfOk, OnOk};
ghost use Rattle.std.specs.List.{range_with_len};
ghost use Rattle.vw_prog.specs.Coding.{IsTable, gate_nets, named, named_all, no_slot, slot_in, take_nets};

use crate::action::Action;
use crate::owners::OwnLatch;
use std::alloc::{AllocError, Global};

/// What a table has for a net without a slot.
pub const NO_SLOT: u32 = 4294967295;

/// Whether a table has no slot for a net, and could have one.
fn is_free(table: &[u32], net: u32) -> bool
    ensures { result ≡ (nat_lt net (length table.now) && slot_in table.now net == no_slot) }
{
    match table.get(net as usize) {
        Some(slot) => *slot == NO_SLOT,
        None => false,
    }
}

/// Gives a net the next slot, where it has none.
fn name(net: u32, nets: &mut Vec<u32>, table: &mut [u32]) -> Result<(), AllocError>
    requires is { IsTable nets.old.items table.old }
    requires few { length table.old < no_slot }
    ensures long { length table.new ≡ length table.old }
    ensures nets { OnOk result (nets.new.items ≡ named (length table.old) nets.old.items net) }
    ensures is { OnOk result (IsTable nets.new.items table.new) }
{
    if is_free(table, net) {
        table[net as usize] = nets.len() as u32;
        nets.push(net)?;
    }
    Ok(())
}

/// Gives each of these nets a slot.
pub fn name_all(list: &[u32], nets: &mut Vec<u32>, table: &mut [u32]) -> Result<(), AllocError>
    requires is { IsTable nets.old.items table.old }
    requires few { length table.old < no_slot }
    ensures long { length table.new ≡ length table.old }
    ensures nets { OnOk result (nets.new.items
        ≡ named_all (length table.old) nets.old.items list.now) }
    ensures is { OnOk result (IsTable nets.new.items table.new) }
{
    for net in list {
        name(*net, nets, table)?;
    }
    Ok(())
}

/// Takes these nets' slots out of a table.
pub fn clear(nets: &[u32], table: &mut [u32])
    requires { IsTable nets.now table.old }
    ensures long { length table.new ≡ length table.old }
    ensures is { IsTable [] table.new }
{
    for net in nets {
        let net = *net as usize;
        if net < table.len() {
            table[net] = NO_SLOT;
        }
    }
}

/// Lists the nets of inputs.
pub fn list_inputs(inputs: u32, list: &mut Vec<u32>) -> Result<(), AllocError>
    ensures { OnOk result (list.new.items ≡ list.old.items ++ range_with_len 0 inputs) }
{
    for net in 0..inputs {
        list.push(net)?;
    }
    Ok(())
}

/// Lists the nets of latches.
pub fn list_latches(own: &[OwnLatch], list: &mut Vec<u32>) -> Result<(), AllocError>
    ensures { OnOk result (list.new.items ≡ list.old.items ++ map (λ latch. latch.net) own.now) }
{
    for latch in own {
        list.push(latch.net)?;
    }
    Ok(())
}

/// Lists the nets of the gates that are worked out.
pub fn list_gates(inputs: u32, actions: &[Action], list: &mut Vec<u32>) -> Result<(), AllocError>
    ensures { OnOk result (list.new.items ≡ list.old.items ++ gate_nets inputs actions.now) }
{
    for action in actions {
        if let Action::Evaluate(number) = action {
            list.push(inputs.saturating_add(*number))?;
        }
    }
    Ok(())
}

/// Lists the nets that are taken.
pub fn list_takes(actions: &[Action], list: &mut Vec<u32>) -> Result<(), AllocError>
    ensures { OnOk result (list.new.items ≡ list.old.items ++ take_nets actions.now) }
{
    for action in actions {
        if let Action::Take { net, .. } = action {
            list.push(*net)?;
        }
    }
    Ok(())
}

/// The slot of a net.
pub fn slot_at(table: &[u32], net: u32) -> u32
    ensures { result ≡ slot_in table.now net }
{
    match table.get(net as usize) {
        Some(slot) => *slot,
        None => 0,
    }
}

/// The slots of nets.
pub fn slots_at(alloc: Global, table: &[u32], nets: &[u32]) -> Result<Vec<u32>, AllocError>
    ensures { IfOk result (λ slots. slots.items ≡ map (slot_in table.now) nets.now) }
{
    let mut slots = Vec::new(alloc);
    for net in nets {
        slots.push(slot_at(table, *net))?;
    }
    Ok(slots)
}

//! A grader of tests, of one fault at a time over values that are kept net by net.
use crate::grading::number_of;
use crate::netlists::{Netlist, Part};
use std::alloc::{AllocError, Global};

/// A stuck net and its bit, or none.
type Stuck = Option<(u32, bool)>;

fn bit_at(bits: &[bool], place: u32) -> bool {
    match bits.get(place as usize) {
        Some(bit) => *bit,
        None => false,
    }
}

fn put(bits: &mut [bool], place: usize, bit: bool) {
    if let Some(old) = bits.get_mut(place) {
        *old = bit;
    }
}

fn found(stuck: Stuck, net: usize, bit: bool) -> bool {
    match stuck {
        Some((its, forced)) => { if its as usize == net { forced } else { bit } }
        None => bit,
    }
}

fn matches(signs: &[u8], ins: &[u32], values: &[bool]) -> bool {
    for (sign, net) in signs.iter().zip(ins) {
        let wanted = match sign {
            b'0' => !bit_at(values, *net),
            b'1' => bit_at(values, *net),
            _ => true,
        };
        if !wanted {
            return false;
        }
    }
    true
}

fn gate_value(rows: &[&str], ins: &[u32], values: &[bool]) -> bool {
    for row in rows {
        if matches(row.as_bytes(), ins, values) {
            return true;
        }
    }
    false
}

/// Puts what is found of inputs and latches, and then of gates.
fn put_values(netlist: &Netlist, stuck: Stuck, row: &[u8], stored: &[bool], values: &mut [bool]) {
    let first = netlist.inputs as usize;
    for (net, sign) in row.iter().enumerate() {
        put(values, net, found(stuck, net, *sign == b'1'));
    }
    for (number, bit) in stored.iter().enumerate() {
        let net = first.wrapping_add(number);
        put(values, net, found(stuck, net, *bit));
    }
    for (number, part) in netlist.parts.iter().enumerate() {
        if let Part::Gate(ins, rows) = part {
            let net = first.wrapping_add(number);
            let bit = gate_value(rows, ins, values);
            put(values, net, found(stuck, net, bit));
        }
    }
}

fn step(netlist: &Netlist, values: &[bool], stored: &mut [bool]) {
    for (number, part) in netlist.parts.iter().enumerate() {
        if let Part::Latch(d) = part {
            put(stored, number, bit_at(values, *d));
        }
    }
}

/// The outputs of all clocks, one after the other.
fn outputs(
    alloc: Global,
    netlist: &Netlist,
    stuck: Stuck,
    rows: &[&str],
) -> Result<Vec<bool>, AllocError> {
    let nets = (netlist.inputs as usize).wrapping_add(netlist.parts.len());
    let mut values = vec![in alloc; false; nets]?;
    let mut stored = vec![in alloc; false; netlist.parts.len()]?;
    let mut told = Vec::new(alloc);
    for row in rows {
        put_values(netlist, stuck, row.as_bytes(), &stored, &mut values);
        for net in netlist.outputs {
            told.push(bit_at(&values, *net))?;
        }
        step(netlist, &values, &mut stored);
    }
    Ok(told)
}

fn net_count(netlist: &Netlist) -> u32 {
    let mut count = netlist.inputs;
    for _ in netlist.parts {
        count = count.wrapping_add(1);
    }
    count
}

/// The numbers of the open faults.
pub fn plainly_open(
    alloc: Global,
    netlist: &Netlist,
    rows: &[&str],
) -> Result<Vec<u32>, AllocError> {
    let plain = outputs(alloc, netlist, None, rows)?;
    let mut open = Vec::new(alloc);
    for net in 0..net_count(netlist) {
        for bit in &[false, true] {
            let told = outputs(alloc, netlist, Some((net, *bit)), rows)?;
            if told.as_slice() == plain.as_slice() {
                open.push(number_of(net, *bit))?;
            }
        }
    }
    Ok(open)
}

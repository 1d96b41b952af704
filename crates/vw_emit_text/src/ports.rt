//! The ports of nodes, in the lists of their models and where these are placed.
ghost use Rattle.std.specs.Prelude.{◌≡◌, ◌≤◌, ◌++◌, length, slice_index, OnOk};
ghost use Rattle.vw_emit_names.specs.Spelled.{spelled};
ghost use Rattle.vw_emit_text.specs.Steps.{inputs_of, latch_port, latch_ports, local_of, net_word, numbered_net, numbered_ports, outputs_of, planned_by, port_in, port_out, port_text, ports_in, ports_out, ports_text};
ghost use Rattle.vw_net.specs.declared.limits.TheConstants.{MOST_CELLS};

use crate::emitter::Emitter;
use crate::names::{Name, Net, push_name, push_net};
use crate::numbered_hop::NumberedHop;
use crate::outlet::Outlet;
use std::alloc::AllocError;
use vw_net::Cell;

/// How ports are written: as the lists of a model have them, or joined to nets of the board, as the model is placed.
#[derive(Clone, Copy)]
pub enum Listing {
    Ports,
    Bindings,
}

/// Appends a port of a node, which has a net of the board.
fn push_port(text: &mut Vec<u8>, listing: Listing, port: Name, net: Net) -> Result<(), AllocError>
    ensures { OnOk result (text.new.items ≡ text.old.items
        ++ port_text listing (record { formal = spelled (local_of port); actual = net_word net })) }
{
    push_name(text, b' ', port)?;
    match listing {
        Listing::Ports => Ok(()),
        Listing::Bindings => push_net(text, b'=', net),
    }
}

/// Nets of the board that have numbers alone.
#[derive(Clone, Copy)]
pub enum Kind {
    Columns,
    Results,
    Shown,
}

/// One of them, by its number.
fn numbered_net(kind: Kind, number: u64) -> Net
    ensures { net_word result ≡ numbered_net kind number }
{
    match kind {
        Kind::Columns => Net::Own(Name::Column(number)),
        Kind::Results => Net::Own(Name::Output(number)),
        Kind::Shown => Net::Shown(number),
    }
}

/// Appends a port that has the name of its net.
fn push_same(text: &mut Vec<u8>, listing: Listing, net: Net) -> Result<(), AllocError>
    ensures { OnOk result (text.new.items ≡ text.old.items
        ++ port_text listing (record { formal = net_word net; actual = net_word net })) }
{
    push_net(text, b' ', net)?;
    match listing {
        Listing::Ports => Ok(()),
        Listing::Bindings => push_net(text, b'=', net),
    }
}

/// Appends so many ports that have the names of their nets, by number.
pub(crate) fn push_numbered(
    text: &mut Vec<u8>,
    listing: Listing,
    kind: Kind,
    count: u32,
) -> Result<(), AllocError>
    ensures { OnOk result (text.new.items
        ≡ text.old.items ++ ports_text listing (numbered_ports kind 0 count)) }
{
    for number in 0..count {
        push_same(text, listing, numbered_net(kind, u64::from(number)))?;
    }
    Ok(())
}

/// Appends the port of a pin at the node that it reaches.
fn push_pin_in(text: &mut Vec<u8>, listing: Listing, hop: &NumberedHop) -> Result<(), AllocError>
    ensures { OnOk result (text.new.items ≡ text.old.items ++ port_text listing (port_in hop.now)) }
{
    let (link, pin) = (u64::from(hop.link), u64::from(hop.pin));
    push_port(text, listing, Name::PinIn(link, pin), Net::Pin(link, pin))
}

/// Appends the port of a pin at the node that it leaves.
fn push_pin_out(text: &mut Vec<u8>, listing: Listing, hop: &NumberedHop) -> Result<(), AllocError>
    ensures { OnOk result (text.new.items ≡ text.old.items ++ port_text listing (port_out hop.now)) }
{
    let (link, pin) = (u64::from(hop.link), u64::from(hop.pin));
    push_port(text, listing, Name::PinOut(link, pin), Net::Pin(link, pin))
}

/// Appends the ports of the pins that reach a node.
fn push_pins_in(
    text: &mut Vec<u8>,
    listing: Listing,
    node: u32,
    outlets: &[Outlet],
) -> Result<(), AllocError>
    ensures { OnOk result (text.new.items
        ≡ text.old.items ++ ports_text listing (ports_in node outlets.now)) }
{
    for outlet in outlets {
        if outlet.number == 0 && outlet.hop.to == node {
            push_pin_in(text, listing, &outlet.hop)?;
        }
    }
    Ok(())
}

/// Appends the ports of the pins that leave a node.
fn push_pins_out(
    text: &mut Vec<u8>,
    listing: Listing,
    node: u32,
    outlets: &[Outlet],
) -> Result<(), AllocError>
    ensures { OnOk result (text.new.items
        ≡ text.old.items ++ ports_text listing (ports_out node outlets.now)) }
{
    for outlet in outlets {
        if outlet.number == 0 && outlet.hop.from == node {
            push_pin_out(text, listing, &outlet.hop)?;
        }
    }
    Ok(())
}

/// The chip of a cell.
pub(crate) fn chip_at(chip_of: &[u32], cell: usize) -> u32
    ensures { result ≡ slice_index chip_of.now cell }
{
    match chip_of.get(cell) {
        Some(chip) => *chip,
        None => 0,
    }
}

/// Appends the port of a latch.
fn push_latch(
    text: &mut Vec<u8>,
    listing: Listing,
    cell: usize,
    latch: u32,
) -> Result<(), AllocError>
    ensures { OnOk result (text.new.items ≡ text.old.items ++ port_text listing (latch_port cell latch)) }
{
    let port = Name::Kept(cell as u64);
    push_port(text, listing, port, Net::Shown(u64::from(latch)))
}

/// Appends the ports of the latches of a chip.
fn push_latches(
    text: &mut Vec<u8>,
    listing: Listing,
    chip_of: &[u32],
    node: u32,
    cells: &[Cell],
) -> Result<(), AllocError>
    requires { length cells.now ≤ MOST_CELLS }
    ensures { OnOk result (text.new.items
        ≡ text.old.items ++ ports_text listing (latch_ports chip_of.now node 0 0 cells.now)) }
{
    let mut latch = 0;
    for (number, cell) in cells.iter().enumerate() {
        match cell {
            Cell::Gate { .. } => {}
            Cell::Latch { .. } => {
                if chip_at(chip_of, number) == node {
                    push_latch(text, listing, number, latch)?;
                }
                latch += 1;
            }
        }
    }
    Ok(())
}

/// Appends the inputs of a node.
pub(crate) fn push_inputs(
    text: &mut Vec<u8>,
    listing: Listing,
    emitter: &Emitter,
    node: u32,
) -> Result<(), AllocError>
    ensures { OnOk result (text.new.items ≡ text.old.items
        ++ ports_text listing (inputs_of (planned_by emitter.now) node)) }
{
    if node == 0 {
        let columns = emitter.ordered.flat().inputs();
        push_numbered(text, listing, Kind::Columns, columns)?;
    }
    push_pins_in(text, listing, node, emitter.outlets)
}

/// Appends the outputs of a node.
pub(crate) fn push_outputs(
    text: &mut Vec<u8>,
    listing: Listing,
    emitter: &Emitter,
    node: u32,
) -> Result<(), AllocError>
    ensures { OnOk result (text.new.items ≡ text.old.items
        ++ ports_text listing (outputs_of (planned_by emitter.now) node)) }
{
    let flat = emitter.ordered.flat();
    push_pins_out(text, listing, node, emitter.outlets)?;
    if node == 0 {
        push_numbered(text, listing, Kind::Results, flat.outputs().len() as u32)
    } else {
        push_latches(text, listing, emitter.plan.chip_of(), node, flat.cells())
    }
}

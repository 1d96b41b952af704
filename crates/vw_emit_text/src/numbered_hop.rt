//! The hops of a plan with their numbers.
ghost use Rattle.std.specs.Prelude.{◌≡◌, ◌≤◌, ◌^◌, ◌++◌, IfOk, OnOk};
ghost use Rattle.std.specs.List.{All};
ghost use Rattle.vw_emit_text.specs.Outlets.{hops_of_wire, hops_of_wires, numbered_hop};

use std::alloc::{AllocError, Global};
use vw_plan::{Hop, Wire};
use vw_ready::LinkTable;

/// A hop of a wire. Hops are ordered by link, then by pin, and then by microcycle.
#[derive(Clone, Copy, Debug, PartialEq, Eq, PartialOrd, Ord)]
pub struct NumberedHop {
    /// The number of the link.
    pub link: u32,
    pub pin: u32,
    /// The microcycle in which it is sent.
    pub at: u64,
    /// The number of the wire.
    pub wire: u64,
    /// The number of the hop in its wire.
    pub hop: u64,
    /// The wire's net.
    pub net: u32,
    pub from: u32,
    pub to: u32,
    /// The microcycle in which its bit arrives.
    pub arrival: u64,
}

/// A hop with its numbers.
fn numbered_hop(links: &LinkTable, net: u32, wire: u64, number: u64, hop: &Hop) -> NumberedHop
    requires { hop.now.at ≤ 2 ^ 62 }
    ensures { result ≡ numbered_hop links.now net wire number hop.now }
{
    let link = match links.number(hop.from(), hop.to()) {
        Some(link) => link,
        None => 0,
    };
    NumberedHop {
        link,
        pin: hop.pin(),
        at: hop.at(),
        wire,
        hop: number,
        net,
        from: hop.from(),
        to: hop.to(),
        arrival: links.arrival(hop),
    }
}

/// Lists the hops of a wire.
fn list_hops(
    links: &LinkTable,
    number: u64,
    wire: &Wire,
    list: &mut Vec<NumberedHop>,
) -> Result<(), AllocError>
    requires { All (λ hop. hop.at ≤ 2 ^ 62) wire.now.hops }
    ensures { OnOk result (list.new.items
        ≡ list.old.items ++ hops_of_wire links.now wire.now.net number 0 wire.now.hops) }
{
    let net = wire.net();
    for (place, hop) in wire.hops().iter().enumerate() {
        list.push(numbered_hop(links, net, number, place as u64, hop))?;
    }
    Ok(())
}

/// The hops of all wires, by wire and then in the order in which they are made.
pub(crate) fn numbered_hops(
    alloc: Global,
    links: &LinkTable,
    wires: &[Wire],
) -> Result<Vec<NumberedHop>, AllocError>
    requires { All (λ wire. All (λ hop. hop.at ≤ 2 ^ 62) wire.hops) wires.now }
    ensures { IfOk result (λ list. list.items ≡ hops_of_wires links.now 0 wires.now) }
{
    let mut list = Vec::new(alloc);
    for (number, wire) in wires.iter().enumerate() {
        list_hops(links, number as u64, wire, &mut list)?;
    }
    Ok(list)
}

//! The timetable of a board, and the nodes that it is dealt to.
ghost use Rattle.std.specs.Prelude.{◌≡◌, ◌≤◌, ◌<◌, ◌^◌, ◌++◌, ℕ, [], length, map, IfOk, OnOk};
ghost use Rattle.std.specs.List.{All};
ghost use Rattle.vw_plan.specs.PlannedBoard.{planned_board};
ghost use Rattle.vw_plan.specs.Sound.{IsSound};
ghost use Rattle.vw_ready.specs.LeadTables.{AreLeads, planned_in};
ghost use Rattle.vw_prog.specs.Steps.{AreOwnEntries, gate_entry_of, lists_of};
ghost use Rattle.vw_prog.specs.Timetable.{entries, gate_entries, hop_entries, link_of_hop, sent_entry, taken_entry, timetable, wire_entries};

use crate::entry::Entry;
use crate::laws::leads_end_in_time;
use std::alloc::{AllocError, Global};
use vw_plan::{Checked, Hop, Wire, needed_nets_are_nets, node_of};
use vw_ready::{LinkTable, Wired, arrivals_of, home_leads, wire_table};

/// The entry of the gate at a place of the order, of which this is the lead.
fn gate_entry(wired: &Wired, lead: u64, place: usize, number: u32) -> Entry
    requires number { number < length wired.now.ordered.now.flat.cells }
    requires lead { lead ≤ 2 ^ 62 }
    requires place { place < 2 ^ 32 }
    ensures { result ≡ gate_entry_of (planned_in wired.now) lead place number }
{
    let flat = wired.ordered.flat();
    let net = flat.inputs() + number;
    Entry {
        moment: 3 * lead,
        link: 0,
        place: place as u32,
        node: node_of(flat, wired.plan.chip_of(), net),
        net,
    }
}

/// Lists the entry of each gate.
fn list_gates(wired: &Wired, leads: &[u64], entries: &mut Vec<Entry>) -> Result<(), AllocError>
    requires leads { AreLeads (planned_in wired.now) leads.now }
    requires low { All (λ lead. lead ≤ 2 ^ 62) leads.now }
    ensures { OnOk result (entries.new.items ≡ entries.old.items
        ++ gate_entries (planned_in wired.now) 0 wired.now.ordered.now.order) }
{
    let inputs = wired.ordered.flat().inputs() as usize;
    for (place, number) in wired.ordered.order().iter().enumerate() {
        let lead = leads[inputs + *number as usize];
        entries.push(gate_entry(wired, lead, place, *number))?;
    }
    Ok(())
}

/// The number of the link over which a hop goes.
fn link_place(links: &LinkTable, hop: &Hop) -> u32
    ensures { result ≡ link_of_hop links.now hop.now }
{
    match links.number(hop.from(), hop.to()) {
        Some(number) => number,
        None => 0,
    }
}

/// The entry of the node that a hop leaves.
fn sent_entry(links: &LinkTable, net: u32, hop: &Hop) -> Entry
    requires { hop.now.at ≤ 2 ^ 62 }
    ensures { result ≡ sent_entry links.now net hop.now }
{
    Entry {
        moment: 3 * hop.at() + 1,
        link: link_place(links, hop),
        place: hop.pin(),
        node: hop.from(),
        net,
    }
}

/// The entry of the node that a hop reaches.
fn taken_entry(links: &LinkTable, net: u32, hop: &Hop) -> Entry
    requires { hop.now.at ≤ 2 ^ 62 }
    ensures { result ≡ taken_entry links.now net hop.now }
{
    Entry {
        moment: 3 * links.arrival(hop) + 2,
        link: link_place(links, hop),
        place: hop.pin(),
        node: hop.to(),
        net,
    }
}

/// Lists the two entries of each hop of a wire of a net.
fn list_hops(
    links: &LinkTable,
    net: u32,
    hops: &[Hop],
    entries: &mut Vec<Entry>,
) -> Result<(), AllocError>
    requires { All (λ hop. hop.at ≤ 2 ^ 62) hops.now }
    ensures { OnOk result (entries.new.items
        ≡ entries.old.items ++ hop_entries links.now net hops.now) }
{
    for hop in hops {
        entries.push(sent_entry(links, net, hop))?;
        entries.push(taken_entry(links, net, hop))?;
    }
    Ok(())
}

/// Lists the entries of the hops of each wire.
fn list_wires(links: &LinkTable, wires: &[Wire], entries: &mut Vec<Entry>) -> Result<(), AllocError>
    requires { All (λ wire. All (λ hop. hop.at ≤ 2 ^ 62) wire.hops) wires.now }
    ensures { OnOk result (entries.new.items
        ≡ entries.old.items ++ wire_entries links.now wires.now) }
{
    for wire in wires {
        list_hops(links, wire.net(), wire.hops(), entries)?;
    }
    Ok(())
}

/// All entries, gates first.
fn entries(alloc: Global, wired: &Wired) -> Result<Vec<Entry>, AllocError>
    requires { IsSound (planned_in wired.now) }
    ensures { IfOk result (λ list. list.items ≡ entries (planned_in wired.now)) }
{
    leads_end_in_time();
    let arrivals = arrivals_of(alloc, wired)?;
    let leads = home_leads(alloc, wired, arrivals.as_slice())?;
    let mut list = Vec::new(alloc);
    list_gates(wired, leads.as_slice(), &mut list)?;
    list_wires(wired.links, wired.plan.wires(), &mut list)?;
    Ok(list)
}

/// The entries of all nodes, in order.
pub fn timetable(alloc: Global, checked: &Checked) -> Result<Vec<Entry>, AllocError>
    ensures { IfOk result (λ list. list.items ≡ timetable
        (planned_board checked.now.ordered checked.now.board checked.now.plan)) }
{
    needed_nets_are_nets();
    let wires = wire_table(alloc, checked.plan())?;
    let links = LinkTable::of(alloc, checked.board())?;
    let wired = Wired {
        ordered: checked.ordered(),
        board: checked.board(),
        plan: checked.plan(),
        wires: &wires,
        links: &links,
    };
    let mut list = entries(alloc, &wired)?;
    list.sort()?;
    Ok(list)
}

/// So many lists without entries.
fn no_entries(alloc: Global, nodes: u32) -> Result<Vec<Vec<Entry>>, AllocError>
    ensures { IfOk result (λ lists. AreOwnEntries nodes [] (lists_of lists.items)) }
{
    let mut lists = Vec::new(alloc);
    for _ in 0..nodes {
        lists.push(Vec::new(alloc))?;
    }
    Ok(lists)
}

/// Gives each node its entries.
fn deal_entries(entries: &[Entry], lists: &mut Vec<Vec<Entry>>) -> Result<(), AllocError>
    ensures { OnOk result ((nodes : ℕ) → AreOwnEntries nodes [] (lists_of lists.old.items)
        → AreOwnEntries nodes entries.now (lists_of lists.new.items)) }
{
    for entry in entries {
        let node = entry.node as usize;
        if node < lists.len() {
            lists[node].push(*entry)?;
        }
    }
    Ok(())
}

/// The entries of each node.
pub fn deal(alloc: Global, nodes: u32, entries: &[Entry]) -> Result<Vec<Vec<Entry>>, AllocError>
    ensures { IfOk result (λ lists. AreOwnEntries nodes entries.now (lists_of lists.items)) }
{
    let mut lists = no_entries(alloc, nodes)?;
    deal_entries(entries, &mut lists)?;
    Ok(lists)
}

//! The hops of a route.
ghost use Rattle.std.specs.Prelude.{◌≡◌, ◌≤◌, ◌<◌, ◌+◌, ◌*◌, ◌^◌, ◌++◌, ◌∷◌, length, map, IfOk, IsTrue};
ghost use Rattle.std.specs.List.{All};
ghost use Rattle.vw_plan.specs.Lead.{arrival};
ghost use Rattle.vw_plan.specs.Routes.{steps_of};
ghost use Rattle.vw_plan.specs.Walks.{has_link};
ghost use Rattle.vw_pipe.specs.Steps.SentHops.{AreLinked, AreSent, link_place, hop_takes};

use crate::given::Given;
use std::alloc::{AllocError, Global};
use vw_plan::Hop;
use vw_slots::SlotTable;

/// The number of the link from a node to another.
fn link_between(given: &Given, from: u32, to: u32) -> u32
    requires { IsTrue (has_link given.now.board.now.links from to) }
    ensures { result ≡ link_place given.now.board.now.links from to }
{
    match given.links.number(from, to) {
        Some(number) => number,
        None => 0,
    }
}

/// Sends a bit from a node through others, from a microcycle on: each hop takes the first free slot of its link, not before
/// the one before it has arrived.
pub fn send_along(
    alloc: Global,
    given: &Given,
    table: &mut SlotTable,
    first: u32,
    further: &[u32],
    ready: u64,
) -> Result<Vec<Hop>, AllocError>
    requires linked { AreLinked given.now.board.now.links first further.now }
    requires widths { table.old.widths ≡ map (λ link. link.width) given.now.board.now.links }
    requires few { length table.old.taken + length further.now < 2 ^ 30 }
    requires early { ready ≤ 2 ^ 61 }
    ensures soon { IfOk result (λ hops. All (λ hop. arrival given.now.board.now.links hop + 1
        ≤ ready + length further.now * (2 ^ 30 + 16)) hops.items) }
    ensures ok { IfOk result (λ hops. AreSent given.now.board.now table.old.taken ready (steps_of
        (first ∷ further.now)) hops.items
        × (table.new.taken ≡ table.old.taken ++ map (hop_takes given.now.board.now) hops.items)
        × (table.new.widths ≡ table.old.widths)) }
{
    table.reserve(further.len() as u64)?;
    let mut hops = Vec::with_capacity(alloc, further.len())?;
    let mut from = first;
    let mut microcycle = ready;
    for to in further {
        let link = link_between(given, from, *to);
        let slot = table.take_first(link, microcycle);
        let hop = Hop::make(from, *to, slot.pin(), slot.at());
        microcycle = given.links.arrival(&hop) + 1;
        hops.push(hop)?;
        from = *to;
    }
    Ok(hops)
}

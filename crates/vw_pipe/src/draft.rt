//! Schedules in the making.
ghost use Rattle.std.specs.Prelude.{◌≡◌, ◌≤◌, ◌<◌, ◌+◌, ◌^◌, ◌∷◌, ℕ, List, [], length, map, slice_index_or, OnOk};
ghost use Rattle.vw_plan.specs.Lead.{after_last};
ghost use Rattle.vw_plan.specs.Routes.{steps_of};
ghost use Rattle.vw_pipe.specs.Steps.SentHops.{AreLinked};
ghost use Rattle.vw_pipe.specs.Steps.Drafts.{IsSentMore};

use crate::along::send_along;
use crate::given::Given;
use std::alloc::{AllocError, Global};
use vw_net::Sequence;
use vw_plan::{Hop, Route};
use vw_slots::SlotTable;

/// A schedule in the making.
#[derive(Drop)]
pub struct Draft {
    /// The lead of each net at its own node, where it is worked out.
    pub leads: Vec<u64>,
    /// The hops of each route, where they are sent; else none.
    pub hops: Vec<Sequence<Hop>>,
    /// One past the arrival of each route, where its hops are sent; else 0.
    pub arrivals: Vec<u64>,
    /// The slots that are taken.
    pub table: SlotTable,
    /// One past the arrival of the last hop so far; 0 where there is none.
    pub after: u64,
}

/// Sends a net along its route, from a microcycle on.
pub fn send(
    alloc: Global,
    given: &Given,
    route: &Route,
    draft: &mut Draft,
    number: u32,
    ready: u64,
) -> Result<(), AllocError>
    requires number { number < length draft.old.hops.items }
    requires arrivals { draft.old.arrivals.items
        ≡ map (after_last given.now.board.now.links) draft.old.hops.items }
    requires first { (first : ℕ) → (further : List ℕ) → route.now.nodes ≡ first ∷ further
        → AreLinked given.now.board.now.links first further }
    requires widths { draft.old.table.widths ≡ map (λ link. link.width) given.now.board.now.links }
    requires few { length draft.old.table.taken + length (steps_of route.now.nodes) < 2 ^ 30 }
    requires early { ready ≤ 2 ^ 61 }
    requires none { slice_index_or draft.old.hops.items number [] ≡ [] }
    ensures { OnOk result
        (IsSentMore given.now.board.now route.now number ready draft.old draft.new) }
{
    if let Some((first, further)) = route.nodes().split_first() {
        let hops = send_along(alloc, given, &mut draft.table, *first, further, ready)?;
        let arrival = given.links.after_last(&hops);
        draft.after = draft.after.max(arrival);
        draft.arrivals[number as usize] = arrival;
        draft.hops[number as usize] = Sequence::of(hops);
    }
    Ok(())
}

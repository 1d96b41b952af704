//! A planned board, with what its models are written from.
ghost use Rattle.std.specs.Prelude.{◌≡◌, None};
ghost use Rattle.vw_ready.specs.Pairs.{HasPairs};
ghost use Rattle.vw_ready.specs.Wires.{wire_pairs};
ghost use Rattle.vw_net.specs.Sorting.{sorted};
ghost use Rattle.vw_plan.specs.PlannedBoard.{planned_board};
ghost use Rattle.vw_plan.specs.Sound.{IsSound};
ghost use Rattle.vw_emit_text.specs.Outlets.{hops_of_wires, leaves_before, outlets_behind};

use crate::numbered_hop::NumberedHop;
use crate::outlet::Outlet;
use vw_net::Ordered;
use vw_plan::{Board, Plan};
use vw_ready::PairTable;

/// A planned board, and three tables that are made of it.
#[derive(Drop)]
pub struct Emitter<'a> {
    pub ordered: &'a Ordered,
    pub board: &'a Board,
    pub plan: &'a Plan,
    /// The first wire that brings each net to each node.
    pub wires: &'a PairTable,
    /// All hops, by wire.
    pub hops: &'a [NumberedHop],
    /// All hops, by the pins by which they leave.
    pub outlets: &'a [Outlet],
    ghost sound: { IsSound (planned_board ordered.now board.now plan.now) },
    ghost has_wires: { HasPairs (wire_pairs plan.now.wires) wires.now.places },
    ghost hops_are: { hops.now ≡ hops_of_wires board.now.links 0 plan.now.wires },
    ghost outlets_are: { outlets.now ≡ outlets_behind None 0 (sorted leaves_before hops.now) },
}

//! What a schedule is made from.
ghost use Rattle.std.specs.Prelude.{◌≡◌, length};
ghost use Rattle.vw_ready.specs.Pairs.{HasPairs};
ghost use Rattle.vw_pipe.specs.Steps.Leads.{route_pairs};

use vw_net::Ordered;
use vw_plan::{Board, Route};
use vw_ready::{LinkTable, PairTable};

/// What stays the same while one schedule is made: the netlist with the chips of its cells and the routes of its nets, the
/// board, and two tables made of these.
#[derive(Drop)]
pub struct Given<'a> {
    /// The netlist, with the order of its gates.
    pub ordered: &'a Ordered,
    /// The board.
    pub board: &'a Board,
    /// The chip of each cell.
    pub chip_of: &'a [u32],
    /// The routes of the needed pairs.
    pub routes: &'a [Route],
    /// The place of each route, by its net and the node that it leads to.
    pub places: &'a PairTable,
    /// The links of the board.
    pub links: &'a LinkTable<'a>,
    ghost each: { length chip_of.now ≡ length ordered.now.flat.cells },
    ghost has_places: { HasPairs (route_pairs routes.now) places.now.places },
    ghost has_links: { links.now ≡ board.now.links },
}

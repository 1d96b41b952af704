ghost use Rattle.std.specs.Prelude.{◌≡◌, ◌<◌, ◌+◌, length};
ghost use Rattle.std.specs.List.{All};
ghost use Rattle.vw_ready.specs.Pairs.{HasPairs};
ghost use Rattle.vw_ready.specs.Wires.{wire_pairs};

use crate::links::LinkTable;
use crate::pairs::PairTable;
use vw_net::Ordered;
use vw_plan::{Board, Plan};

/// A plan in which each cell has a chip and each wire brings a net of the netlist, with two tables made of it and its board.
#[derive(Drop)]
pub struct Wired<'a> {
    pub ordered: &'a Ordered,
    pub board: &'a Board,
    pub plan: &'a Plan,
    /// The first wire that brings each net to each node.
    pub wires: &'a PairTable,
    /// The links of the board.
    pub links: &'a LinkTable<'a>,
    ghost each: { length plan.now.chip_of ≡ length ordered.now.flat.cells },
    ghost nets: { All (λ wire. wire.net < ordered.now.flat.inputs + length ordered.now.flat.cells)
        plan.now.wires },
    ghost has_wires: { HasPairs (wire_pairs plan.now.wires) wires.now.places },
    ghost has_links: { links.now ≡ board.now.links },
}

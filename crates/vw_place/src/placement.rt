//! What is numbered anew.
ghost use Rattle.std.specs.Prelude.{◌≡◌, length};
ghost use Rattle.std.specs.List.{All};
ghost use Rattle.vw_plan.specs.Chips.{IsChip};

use vw_board::Distances;
use vw_net::Ordered;
use vw_plan::Board;

/// A placement of a netlist on a board: each cell has a chip of the board.
#[derive(Drop)]
pub struct Placement<'a> {
    /// The netlist, with the order of its gates.
    pub ordered: &'a Ordered,
    /// The board.
    pub board: &'a Board,
    /// How far the nodes of the board are from each other.
    pub distances: &'a Distances,
    /// The chip of each cell.
    pub chip_of: &'a [u32],
    ghost each: { length chip_of.now ≡ length ordered.now.flat.cells },
    ghost chips: { All (IsChip board.now) chip_of.now },
    ghost same_board: { distances.now ≡ board.now },
}

ghost use Rattle.std.specs.Prelude.{◌≡◌, ◌≤◌, length};
ghost use Rattle.std.specs.List.{All};

use vw_delays::Delays;
use vw_net::Ordered;
use vw_plan::Board;

/// A design on a board with the chip of each cell, and the delays between the nodes of the board.
#[derive(Drop)]
pub struct Placed<'a> {
    /// The netlist, with the order of its gates.
    pub ordered: &'a Ordered,
    pub board: &'a Board,
    /// The chip of each cell.
    pub chip_of: &'a [u32],
    /// The delays of the board.
    pub delays: &'a Delays,
    ghost each: { length chip_of.now ≡ length ordered.now.flat.cells },
    ghost chips: { All (λ chip. chip ≤ board.now.chips) chip_of.now },
    ghost has_delays: { delays.now ≡ board.now },
}

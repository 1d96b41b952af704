//! The chips of a placement, numbered anew.
ghost use Rattle.std.specs.Prelude.{◌≡◌, ◌≤◌, ℕ, length, IfOk, IfErr};
ghost use Rattle.std.specs.List.{All};
ghost use Rattle.vw_plan.specs.Chips.{IsChip, cells_on};
ghost use Rattle.vw_plan.specs.Good.{NoExchangeHelps, NoMoveHelps};
ghost use Rattle.vw_place.specs.Numbering.{IsRenumbered};

use crate::exchange::Exchange;
use crate::node_list::NodeList;
use crate::pair_table::PairTable;
use crate::placement::Placement;
use std::alloc::{AllocError, Global};
use vw_board::Distances;
use vw_net::{Ordered, Sequence};
use vw_plan::Board;

/// The chips that were handed in, where there is no memory.
#[derive(Drop)]
pub struct PlaceRefused {
    /// The chip of each cell.
    pub chip_of: Sequence<u32>,
}

/// What `place` answers, where there is memory.
fn placed(alloc: Global, placement: &Placement) -> Result<Sequence<u32>, AllocError>
    ensures renumbered { IfOk result
        (IsRenumbered placement.now.board.now placement.now.chip_of.now) }
    ensures exchanges { IfOk result
        (NoExchangeHelps placement.now.ordered.now.flat placement.now.board.now) }
    ensures moves { NoMoveHelps placement.now.ordered.now.flat placement.now.board.now
        placement.now.chip_of.now
        → IfOk result (NoMoveHelps placement.now.ordered.now.flat placement.now.board.now) }
{
    let table = PairTable::of(alloc, placement)?;
    let nodes = NodeList::of(alloc, placement)?;
    let mut exchange = Exchange::of(&table, nodes);
    exchange.run();
    exchange.nodes.renumbered(alloc, placement.chip_of)
}

/// Numbers the chips of a placement anew, so that no exchange of what is on two chips lessens the travel of the needed
/// pairs. The cells that share a chip still share one. It takes memory for the needed pairs, a fixed table, and the
/// answer. Each round tries to exchange each two chips, and each round but the last lessens the travel.
pub fn place(
    alloc: Global,
    ordered: &Ordered,
    board: &Board,
    distances: &Distances,
    chip_of: Sequence<u32>,
) -> Result<Sequence<u32>, PlaceRefused>
    requires each { length chip_of ≡ length ordered.now.flat.cells }
    requires chips { All (IsChip board.now) chip_of }
    requires distances { distances.now ≡ board.now }
    ensures renumbered { IfOk result (IsRenumbered board.now chip_of) }
    ensures exchanges { IfOk result (NoExchangeHelps ordered.now.flat board.now) }
    ensures each { IfOk result (λ new. length new ≡ length ordered.now.flat.cells) }
    ensures chips { IfOk result (All (IsChip board.now)) }
    ensures room { IfOk result (λ new. (most : ℕ)
        → ((chip : ℕ) → cells_on chip_of chip ≤ most)
        → (chip : ℕ) → cells_on new chip ≤ most) }
    ensures moves { NoMoveHelps ordered.now.flat board.now chip_of
        → IfOk result (NoMoveHelps ordered.now.flat board.now) }
    ensures refused { IfErr result (λ refused. refused.chip_of ≡ chip_of) }
{
    let placement = Placement {
        ordered,
        board,
        distances,
        chip_of: chip_of.as_slice(),
    };
    match placed(alloc, &placement) {
        Ok(new) => Ok(new),
        Err(_) => Err(PlaceRefused { chip_of }),
    }
}

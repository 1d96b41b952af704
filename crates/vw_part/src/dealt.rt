//! The partition of cells over chips.
ghost use Rattle.std.specs.Prelude.{◌≡◌, ◌*◌, ◌≤◌, ℕ, length, IfErr, IfOk};
ghost use Rattle.std.specs.List.{All};
ghost use Rattle.vw_plan.specs.Chips.{IsChip, cells_on};
ghost use Rattle.vw_plan.specs.Good.{NoMoveHelps};
ghost use Rattle.vw_part.specs.Faults.{IsPartFault};

use crate::cell_nets::CellNets;
use crate::deal::Deal;
use crate::fault::PartFault;
use std::alloc::{AllocError, Global};
use vw_net::{Flat, Ordered, Sequence};
use vw_plan::Board;

/// Deals the cells to chips that have room for all of them, by wishes.
fn dealt(
    alloc: Global,
    flat: &Flat,
    board: &Board,
    wishes: &[u32],
) -> Result<Sequence<u32>, AllocError>
    requires { length flat.now.cells ≤ board.now.chips * board.now.cells }
    ensures each { IfOk result (λ chip_of. length chip_of ≡ length flat.now.cells) }
    ensures chips { IfOk result (All (IsChip board.now)) }
    ensures room { IfOk result (λ chip_of. (chip : ℕ) → cells_on chip_of chip ≤ board.now.cells) }
    ensures least { IfOk result (NoMoveHelps flat.now board.now) }
{
    let cell_nets = CellNets::of(alloc, flat)?;
    let mut deal = Deal::of(alloc, board, &cell_nets, wishes)?;
    deal.descend();
    Ok(Sequence::of(deal.chip_of))
}

/// Deals the cells to the chips of a board: each cell has one chip, no chip has more cells than it has room for, and no
/// move of one cell to a chip with room lowers the number of needed pairs. Each cell begins on the chip that is wished for it,
/// where there is a wish, it is a chip's number, and the chip has room; else on the first chip with room. How few pairs are
/// needed at last rests on the wishes, and nothing else does. It takes memory for the nets of the cells and the cells of the
/// nets, and for each chip a number for each net and for each cell.
pub fn partition_from(
    alloc: Global,
    ordered: &Ordered,
    board: &Board,
    wishes: &[u32],
) -> Result<Sequence<u32>, PartFault>
    ensures each { IfOk result (λ chip_of. length chip_of ≡ length ordered.now.flat.cells) }
    ensures chips { IfOk result (All (IsChip board.now)) }
    ensures room { IfOk result (λ chip_of. (chip : ℕ) → cells_on chip_of chip ≤ board.now.cells) }
    ensures least { IfOk result (NoMoveHelps ordered.now.flat board.now) }
    ensures fault { IfErr result (IsPartFault ordered.now.flat board.now) }
{
    let flat = ordered.flat();
    let cells = flat.cells().len() as u64;
    let room = u64::from(board.chips()) * u64::from(board.cells());
    if cells > room {
        return Err(PartFault::TooManyCells { cells, room });
    }
    match dealt(alloc, flat, board, wishes) {
        Ok(chip_of) => Ok(chip_of),
        Err(_) => Err(PartFault::NoMemory),
    }
}

//! Faults of the chips of cells, and of the period.
ghost use Rattle.std.specs.Prelude.{◌≡◌, ◌<◌, ◌^◌, length};
ghost use Rattle.vw_check.specs.CellFaults.{wrong_cells, zero_period, is_chip, bad_chip, overfull};
ghost use Rattle.vw_plan.specs.Chips.{cells_on};

use crate::fault::PlanFault;
use vw_net::Flat;
use vw_plan::{Board, Plan};

/// There is another number of chips than there are cells.
pub fn wrong_cells(flat: &Flat, chip_of: &[u32]) -> Option<PlanFault>
    requires { length chip_of.now < 2 ^ 32 }
    ensures { result ≡ wrong_cells flat.now chip_of.now }
{
    let found = chip_of.len();
    let wanted = flat.cells().len();
    if found == wanted {
        return None;
    }
    Some(PlanFault::WrongCells(found as u32, wanted as u32))
}

/// The period is 0.
pub fn zero_period(plan: &Plan) -> Option<PlanFault>
    ensures { result ≡ zero_period plan.now }
{
    if plan.period() == 0 {
        return Some(PlanFault::ZeroPeriod);
    }
    None
}

/// Whether a number is that of a chip.
fn is_chip(board: &Board, chip: u32) -> bool
    ensures { result ≡ is_chip board.now chip }
{
    chip != 0 && chip <= board.chips()
}

/// The first cell whose entry is no chip.
pub fn bad_chip(board: &Board, chip_of: &[u32]) -> Option<PlanFault>
    requires { length chip_of.now < 2 ^ 32 }
    ensures { result ≡ bad_chip board.now chip_of.now }
{
    for (cell, chip) in chip_of.iter().enumerate() {
        if !is_chip(board, *chip) {
            return Some(PlanFault::BadChip(cell as u32));
        }
    }
    None
}

/// How many cells are on a chip.
fn cells_on(chip_of: &[u32], chip: u32) -> u32
    requires { length chip_of.now < 2 ^ 32 }
    ensures { result ≡ cells_on chip_of.now chip }
{
    let mut count = 0;
    for other in chip_of {
        if *other == chip {
            count += 1;
        }
    }
    count
}

/// The least chip that has more cells than it has room for. It looks at each cell once for each of the chips, of which there
/// are 32 at most.
pub fn overfull(board: &Board, chip_of: &[u32]) -> Option<PlanFault>
    requires { length chip_of.now < 2 ^ 32 }
    ensures { result ≡ overfull board.now chip_of.now }
{
    for chip in 1..board.chips() + 1 {
        let count = cells_on(chip_of, chip);
        if count > board.cells() {
            return Some(PlanFault::Overfull(chip, count));
        }
    }
    None
}

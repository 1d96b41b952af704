//! Where cells might be put.
ghost use Rattle.std.specs.Prelude.{◌≡◌, length, IfOk};
ghost use Rattle.std.specs.List.{All};
ghost use Rattle.vw_plan.specs.Chips.{IsChip};

use crate::cut::{Cut, better};
use crate::halves::halved;
use crate::level::Level;
use crate::nets::{cells_of_nets, level_of};
use crate::numbers::NumberList;
use crate::run::MultilevelRun;
use std::alloc::{AllocError, Global};
use vw_net::Ordered;
use vw_plan::Board;

/// The cells on these chips, of which each has so much room, after sweeps.
fn swept_cut(
    alloc: Global,
    top: &Level,
    chips: u32,
    room: u32,
    chip_of: NumberList,
) -> Result<Cut, AllocError> {
    let rooms = NumberList::filled(alloc, chips, room)?;
    let mut cut = Cut::of(alloc, top, &rooms, chip_of)?;
    cut.sweeps(top);
    Ok(cut)
}

/// The cells on chips as they follow each other, after sweeps. Many designs come in a good order.
fn in_order(alloc: Global, top: &Level, chips: u32, room: u32) -> Result<Cut, AllocError> {
    let cells = u64::from(top.vertices());
    let mut chip_of = NumberList::new(alloc);
    for cell in 0..top.vertices() {
        let chip = (u64::from(cell) * u64::from(chips))
            .checked_div(cells)
            .unwrap_or(0);
        chip_of.push(u32::try_from(chip).unwrap_or(0))?;
    }
    swept_cut(alloc, top, chips, room, chip_of)
}

/// The cells on chips by halves of halves, after sweeps.
fn in_halves(
    alloc: Global,
    top: &Level,
    chips: u32,
    room: u32,
    tries: u32,
) -> Result<Cut, AllocError> {
    let chip_of = halved(alloc, top, chips, room, tries)?;
    swept_cut(alloc, top, chips, room, chip_of)
}

/// How much work a design is worth: how often each halving is tried, and how many runs fill all chips at once.
fn effort(top: &Level, chips: u32) -> (u32, u32) {
    let size = u64::from(top.of_net.size()) * u64::from(chips);
    if size > 64_000_000 {
        (0, 0)
    } else if size > 16_000_000 {
        (1, 1)
    } else if size > 4_000_000 {
        (2, 1)
    } else {
        (4, 2)
    }
}

/// A run over all chips by its number: each second one makes smaller clusters, and the last one takes as few chips as hold
/// the cells.
fn run_of(
    alloc: Global,
    order: u32,
    runs: u32,
    cells: u32,
    board: &Board,
) -> Result<MultilevelRun, AllocError> {
    let few = cells.div_ceil(board.cells()).max(1);
    let chips = if order.saturating_add(1) < runs {
        board.chips()
    } else {
        few.min(board.chips())
    };
    let even = (u64::from(cells) * 103 / 100)
        .checked_div(u64::from(chips))
        .unwrap_or(0)
        + 1;
    let wide = board.cells().max(u32::try_from(even).unwrap_or(u32::MAX));
    let share = cells.checked_div(chips).unwrap_or(0);
    let most = if order % 2 == 0 {
        share / 6
    } else {
        share / 12
    };
    Ok(MultilevelRun {
        rooms: NumberList::filled(alloc, chips, board.cells())?,
        wide: NumberList::filled(alloc, chips, wide)?,
        order,
        most: most.max(2),
    })
}

/// The best cut that is found: the order of the cells, halves of halves, or one of the runs.
fn best_cut(alloc: Global, top: &Level, board: &Board) -> Result<Cut, AllocError> {
    let (tries, runs) = effort(top, board.chips());
    let mut best = in_order(alloc, top, board.chips(), board.cells())?;
    if tries > 0 {
        let halves = in_halves(alloc, top, board.chips(), board.cells(), tries)?;
        best = better(best, halves);
    }
    for order in 0..runs {
        let run = run_of(alloc, order, runs, top.vertices(), board)?;
        best = better(best, run.of(alloc, top)?);
    }
    Ok(best)
}

/// A chip for each cell: where it might be put. How good a partition is found rests on it, and nothing else does.
///
/// Cells that share nets are put together where that can be done: the best of the order of the cells, of halves of halves,
/// and of runs over all chips at once. A chip may get more cells than it has room for. It takes memory for the nets of the
/// cells, and for each chip a number for each net.
pub fn hint(alloc: Global, ordered: &Ordered, board: &Board) -> Result<Vec<u32>, AllocError>
    ensures each { IfOk result (λ wishes. length wishes.items ≡ length ordered.now.flat.cells) }
    ensures chips { IfOk result (λ wishes. All (IsChip board.now) wishes.items) }
{
    let flat = ordered.flat();
    let of_net = cells_of_nets(alloc, flat)?;
    let top = level_of(alloc, flat, &of_net)?;
    let best = best_cut(alloc, &top, board)?;
    wished(alloc, flat.cells().len(), &best, board)
}

/// The chip of a cell by its number on the board, where the first one is 1.
fn wish(cell: usize, cut: &Cut, board: &Board) -> u32
    ensures { IsChip board.now result }
{
    let chip = cut.chip_of.at(u32::try_from(cell).unwrap_or(u32::MAX));
    chip.saturating_add(1).min(board.chips())
}

/// The chips of so many cells by their numbers on the board.
fn wished(alloc: Global, cells: usize, cut: &Cut, board: &Board) -> Result<Vec<u32>, AllocError>
    ensures each { IfOk result (λ wishes. length wishes.items ≡ cells) }
    ensures chips { IfOk result (λ wishes. All (IsChip board.now) wishes.items) }
{
    let mut wishes = Vec::with_capacity(alloc, cells)?;
    for cell in 0..cells {
        wishes.push(wish(cell, cut, board))?;
    }
    Ok(wishes)
}

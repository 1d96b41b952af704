//! Cells on chips.
ghost use Rattle.std.specs.Prelude.{◌≡◌, ◌+◌, ◌*◌, ◌<◌, ◌≤◌, ◌++◌, ◌∷◌, [], length, slice_set, IfOk, OnOk};
ghost use Rattle.vw_plan.specs.Chips.{IsChip, cells_on};
ghost use Rattle.vw_part.specs.Steps.Deals.{IsDeal, MayMoveTo};
ghost use Rattle.vw_part.specs.Steps.Gains.{KeepsGains};

use crate::cell_nets::CellNets;
use crate::load::Load;
use crate::tally::Tally;
use std::alloc::{AllocError, Global};
use vw_plan::Board;

/// The chip of each cell so far, and what each chip holds, on a board, for cells with these nets. By how much a move of a
/// cell to a chip lowers the number of needed pairs is kept in two parts: what the cell leaves in `freed`, and what it finds
/// in the chip's load. They take a number for each cell and chip, which is 9 MB at most.
#[derive(Drop)]
pub struct Deal<'a> {
    pub board: &'a Board,
    pub cell_nets: &'a CellNets,
    pub chip_of: Vec<u32>,
    /// By the numbers of the nodes. The host, which is node 0, holds no cells.
    pub loads: Vec<Load>,
    /// For each cell, how many of its nets only it drives or reads on its chip.
    pub freed: Tally,
    ghost is: { IsDeal board.now cell_nets.now chip_of.items loads.items },
    ghost gains: { KeepsGains board.now cell_nets.now chip_of.items loads.items freed.counts.items },
}

impl<'a> Deal<'a> {
    /// No cells on the chips of a board, for a netlist of so many nets.
    fn empty(alloc: Global, board: &'a Board, cell_nets: &'a CellNets) -> Result<Self, AllocError>
        ensures none { IfOk result (λ deal. deal.chip_of.items ≡ []) }
        ensures board { IfOk result (λ deal. deal.board.now ≡ board.now) }
        ensures nets { IfOk result (λ deal. deal.cell_nets.now ≡ cell_nets.now) }
    {
        let cells = cell_nets.cells();
        let mut loads = Vec::new(alloc);
        for _chip in 0..board.chips() + 1 {
            let load = Load::empty(alloc, cell_nets.nets, cells)?;
            loads.push(load)?;
        }
        let chip_of = Vec::with_capacity(alloc, cells)?;
        let freed = Tally::zeros(alloc, cells)?;
        Ok(Deal {
            board,
            cell_nets,
            chip_of,
            loads,
            freed,
        })
    }

    /// A chip that has room for one more cell: the one wished for, or else the first one.
    fn chip_with_room(&self, wish: u32) -> u32
        requires { length self.now.chip_of.items
            < self.now.board.now.chips * self.now.board.now.cells }
        ensures chip { IsChip self.now.board.now result }
        ensures room { cells_on self.now.chip_of.items result < self.now.board.now.cells }
    {
        let board = self.board;
        if wish >= 1 && wish <= board.chips() && self.loads[wish as usize].cells < board.cells() {
            return wish;
        }
        for chip in 1..board.chips() + 1 {
            if self.loads[chip as usize].cells < board.cells() {
                return chip;
            }
        }
        0
    }

    /// Puts the next cell on a chip.
    fn put(&mut self, chip: u32) -> Result<(), AllocError>
        requires next { length self.old.chip_of.items
            < length self.old.cell_nets.now.of_cells.items }
        requires chip { IsChip self.old.board.now chip }
        requires room { cells_on self.old.chip_of.items chip < self.old.board.now.cells }
        ensures board { self.new.board ≡ self.old.board }
        ensures nets { self.new.cell_nets ≡ self.old.cell_nets }
        ensures chip_of { OnOk result (self.new.chip_of.items
            ≡ self.old.chip_of.items ++ chip ∷ []) }
    {
        let cell_nets = self.cell_nets;
        let cell = self.chip_of.len();
        let own = cell_nets.at(cell);
        self.chip_of.push(chip)?;
        let load = &mut self.loads[chip as usize];
        self.freed.set(cell, load.lone(own));
        load.add(
            cell_nets,
            own,
            self.chip_of.as_slice(),
            chip,
            &mut self.freed,
        );
        Ok(())
    }

    /// Each cell on the chip that is wished for it, or where that is full on the first one with room.
    pub fn of(
        alloc: Global,
        board: &'a Board,
        cell_nets: &'a CellNets,
        wishes: &[u32],
    ) -> Result<Self, AllocError>
        requires { length cell_nets.now.of_cells.items ≤ board.now.chips * board.now.cells }
        ensures board { IfOk result (λ deal. deal.board.now ≡ board.now) }
        ensures nets { IfOk result (λ deal. deal.cell_nets.now ≡ cell_nets.now) }
        ensures each { IfOk result
            (λ deal. length deal.chip_of.items ≡ length cell_nets.now.of_cells.items) }
    {
        let mut deal = Deal::empty(alloc, board, cell_nets)?;
        for cell in 0..cell_nets.cells() {
            let wish = match wishes.get(cell) {
                Some(wish) => *wish,
                None => 0,
            };
            let chip = deal.chip_with_room(wish);
            deal.put(chip)?;
        }
        Ok(deal)
    }

    /// Moves a cell to another chip.
    pub fn shift(&mut self, cell: usize, chip: u32)
        requires cell { cell < length self.old.chip_of.items }
        requires target { MayMoveTo self.old.board.now self.old.chip_of.items cell chip }
        ensures board { self.new.board ≡ self.old.board }
        ensures nets { self.new.cell_nets ≡ self.old.cell_nets }
        ensures chip_of { self.new.chip_of.items ≡ slice_set self.old.chip_of.items cell chip }
    {
        let cell_nets = self.cell_nets;
        let own = cell_nets.at(cell);
        let from = self.chip_of[cell];
        let left = &mut self.loads[from as usize];
        left.remove(
            cell_nets,
            own,
            self.chip_of.as_slice(),
            from,
            &mut self.freed,
        );
        self.chip_of[cell] = chip;
        let joined = &mut self.loads[chip as usize];
        let lone = joined.lone(own);
        self.freed.set(cell, lone);
        joined.add(
            cell_nets,
            own,
            self.chip_of.as_slice(),
            chip,
            &mut self.freed,
        );
    }
}

//! Moves of single cells, until none helps.
ghost use Rattle.std.specs.Prelude.{◌≡◌, ◌<◌, ℕ, true, false, length, MatchOption};
ghost use Rattle.vw_plan.specs.Chips.{IsChip};
ghost use Rattle.vw_part.specs.Steps.Deals.{IsGain, HasNoGain, MayMoveTo, met, spread};

use crate::deal::Deal;

impl<'a> Deal<'a> {
    /// How many of a cell's nets a chip has cells of, where the cell may be moved to the chip; 0 where it may not.
    fn reach(&self, cell: usize, chip: u32) -> usize
        requires cell { cell < length self.now.chip_of.items }
        requires chip { IsChip self.now.board.now chip }
        ensures allowed { 0 < result
            → MayMoveTo self.now.board.now self.now.chip_of.items cell chip }
        ensures met { MayMoveTo self.now.board.now self.now.chip_of.items cell chip
            → result ≡ met self.now.cell_nets.now self.now.chip_of.items cell chip }
    {
        let load = &self.loads[chip as usize];
        if self.chip_of[cell] == chip || load.cells >= self.board.cells() {
            return 0;
        }
        load.met.at(cell) as usize
    }

    /// The chip to which a cell's move lowers the number of needed pairs most, where some move does. A net of the cell
    /// leaves its chip where no other cell there has it, and comes to a new chip where no cell there has it.
    fn target(&self, cell: usize) -> Option<u32>
        requires { cell < length self.now.chip_of.items }
        ensures { MatchOption result
            (HasNoGain self.now.board.now self.now.cell_nets.now self.now.chip_of.items cell)
            (IsGain self.now.board.now self.now.cell_nets.now self.now.chip_of.items cell) }
    {
        let own = self.cell_nets.at(cell);
        let lone = self.freed.at(cell) as usize;
        if lone == 0 {
            return None;
        }
        let mut most = own.len() - lone;
        let mut best = None;
        for chip in 1..self.board.chips() + 1 {
            let reach = self.reach(cell, chip);
            if reach > most {
                most = reach;
                best = Some(chip);
            }
        }
        best
    }

    /// Moves a cell where that lowers the number of needed pairs most, and says whether some move does.
    fn improve(&mut self, cell: usize) -> bool
        requires { cell < length self.old.chip_of.items }
        ensures board { self.new.board ≡ self.old.board }
        ensures nets { self.new.cell_nets ≡ self.old.cell_nets }
        ensures each { length self.new.chip_of.items ≡ length self.old.chip_of.items }
        ensures lower { result ≡ true
            → spread self.old.board.now self.old.cell_nets.now self.new.chip_of.items
            < spread self.old.board.now self.old.cell_nets.now self.old.chip_of.items }
        ensures same { result ≡ false → self.new.chip_of.items ≡ self.old.chip_of.items }
        ensures settled { result ≡ false → HasNoGain self.old.board.now self.old.cell_nets.now
            self.new.chip_of.items cell }
    {
        match self.target(cell) {
            Some(chip) => {
                self.shift(cell, chip);
                true
            }
            None => false,
        }
    }

    /// Goes over all cells once, and says whether some move helped.
    fn round(&mut self) -> bool
        ensures board { self.new.board ≡ self.old.board }
        ensures nets { self.new.cell_nets ≡ self.old.cell_nets }
        ensures each { length self.new.chip_of.items ≡ length self.old.chip_of.items }
        ensures lower { result ≡ true
            → spread self.old.board.now self.old.cell_nets.now self.new.chip_of.items
            < spread self.old.board.now self.old.cell_nets.now self.old.chip_of.items }
        ensures settled { result ≡ false → (cell : ℕ) → cell < length self.new.chip_of.items
            → HasNoGain self.old.board.now self.old.cell_nets.now self.new.chip_of.items cell }
    {
        let mut moved = false;
        for cell in 0..self.chip_of.len() {
            if self.improve(cell) {
                moved = true;
            }
        }
        moved
    }

    /// Goes over the cells until no move helps. Each round but the last lowers the number of needed pairs.
    pub fn descend(&mut self)
        ensures board { self.new.board ≡ self.old.board }
        ensures nets { self.new.cell_nets ≡ self.old.cell_nets }
        ensures each { length self.new.chip_of.items ≡ length self.old.chip_of.items }
        ensures settled { (cell : ℕ) → cell < length self.new.chip_of.items
            → HasNoGain self.old.board.now self.old.cell_nets.now self.new.chip_of.items cell }
    {
        while self.round() {}
    }
}

//! What one chip holds.
ghost use Rattle.std.specs.Prelude.{◌≡◌, ◌≢◌, ◌+◌, ◌-◌, ◌<◌, ◌≤◌, ◌^◌, ◌==◌, ℕ, length, replicate, slice_index, slice_set, sum_by, IfOk};
ghost use Rattle.std.specs.List.{All};
ghost use Rattle.vw_part.specs.Steps.CellNets.{times_among};
ghost use Rattle.vw_part.specs.Steps.Gains.{AreGains, lone_among};

use crate::cell_nets::CellNets;
use crate::tally::Tally;
use std::alloc::{AllocError, Global};

/// What a chip holds.
pub struct Load {
    /// How many cells.
    pub cells: u32,
    /// For each net, how many of these cells drive or read it.
    pub held: Tally,
    /// For each cell of the netlist, how many of its nets some cell of the chip drives or reads.
    pub met: Tally,
}

impl Drop for Load {
    fn drop(self) {
        let Load {
            cells: _,
            held: _,
            met: _,
        } = self;
    }
}

impl Load {
    /// An empty chip, in a netlist of so many nets and cells.
    pub fn empty(alloc: Global, nets: usize, cells: usize) -> Result<Self, AllocError>
        ensures cells { IfOk result (λ load. load.cells ≡ 0) }
        ensures held { IfOk result (λ load. load.held.counts.items ≡ replicate nets 0) }
        ensures met { IfOk result (λ load. load.met.counts.items ≡ replicate cells 0) }
    {
        Ok(Load {
            cells: 0,
            held: Tally::zeros(alloc, nets)?,
            met: Tally::zeros(alloc, cells)?,
        })
    }

    /// How many of these nets only one cell of the chip drives or reads.
    pub fn lone(&self, nets: &[u32]) -> u32
        requires { length nets.now < 2 ^ 32 }
        ensures { result ≡ lone_among (λ net. slice_index self.now.held.counts.items net) nets.now }
    {
        let mut lone = 0;
        for net in nets {
            if self.held.at(*net as usize) == 1 {
                lone += 1;
            }
        }
        lone
    }

    /// Puts a cell with the nets `own` on the chip, and keeps the gains of all cells at it; `freed` are those of each cell
    /// at its own chip.
    pub fn add(
        &mut self,
        cell_nets: &CellNets,
        own: &[u32],
        chip_of: &[u32],
        chip: u32,
        freed: &mut Tally,
    )
        requires cells { self.old.cells + 1 < 2 ^ 32 }
        requires long { length self.old.held.counts.items ≡ cell_nets.now.nets }
        requires within { All (λ net. net < cell_nets.now.nets) own.now }
        requires fits { (net : ℕ)
            → slice_index self.old.held.counts.items net + times_among own.now net < 2 ^ 32 }
        requires gains { AreGains cell_nets.now chip_of.now chip self.old freed.old.counts.items }
        ensures cells { self.new.cells ≡ self.old.cells + 1 }
        ensures long { length self.new.held.counts.items ≡ length self.old.held.counts.items }
        ensures held { (net : ℕ) → slice_index self.new.held.counts.items net
            ≡ slice_index self.old.held.counts.items net + times_among own.now net }
        ensures gains { AreGains cell_nets.now chip_of.now chip self.new freed.new.counts.items }
        ensures others { (cell : ℕ) → slice_index chip_of.now cell ≢ chip
            → slice_index freed.new.counts.items cell ≡ slice_index freed.old.counts.items cell }
    {
        self.cells += 1;
        for net in own {
            self.raise(cell_nets, *net, chip_of, chip, freed);
        }
    }

    /// Takes a cell with the nets `own` from the chip, and keeps the gains of all cells at it.
    pub fn remove(
        &mut self,
        cell_nets: &CellNets,
        own: &[u32],
        chip_of: &[u32],
        chip: u32,
        freed: &mut Tally,
    )
        requires cells { 1 ≤ self.old.cells }
        requires long { length self.old.held.counts.items ≡ cell_nets.now.nets }
        requires within { All (λ net. net < cell_nets.now.nets) own.now }
        requires there { (net : ℕ)
            → times_among own.now net ≤ slice_index self.old.held.counts.items net }
        requires gains { AreGains cell_nets.now chip_of.now chip self.old freed.old.counts.items }
        ensures cells { self.new.cells + 1 ≡ self.old.cells }
        ensures long { length self.new.held.counts.items ≡ length self.old.held.counts.items }
        ensures held { (net : ℕ)
            → slice_index self.new.held.counts.items net + times_among own.now net
            ≡ slice_index self.old.held.counts.items net }
        ensures gains { AreGains cell_nets.now chip_of.now chip self.new freed.new.counts.items }
        ensures others { (cell : ℕ) → slice_index chip_of.now cell ≢ chip
            → slice_index freed.new.counts.items cell ≡ slice_index freed.old.counts.items cell }
    {
        self.cells -= 1;
        for net in own {
            self.lower(cell_nets, *net, chip_of, chip, freed);
        }
    }

    /// One more cell of the chip drives or reads a net. Where it is the first one, each cell of the net finds it there, and
    /// a cell that is alone there would free it; a second one ends that.
    fn raise(
        &mut self,
        cell_nets: &CellNets,
        net: u32,
        chip_of: &[u32],
        chip: u32,
        freed: &mut Tally,
    )
        requires long { length self.old.held.counts.items ≡ cell_nets.now.nets }
        requires within { net < cell_nets.now.nets }
        requires fits { slice_index self.old.held.counts.items net + 1 < 2 ^ 32 }
        requires gains { AreGains cell_nets.now chip_of.now chip self.old freed.old.counts.items }
        ensures cells { self.new.cells ≡ self.old.cells }
        ensures held { self.new.held.counts.items ≡ slice_set self.old.held.counts.items net
            (slice_index self.old.held.counts.items net + 1) }
        ensures gains { AreGains cell_nets.now chip_of.now chip self.new freed.new.counts.items }
        ensures others { (cell : ℕ) → slice_index chip_of.now cell ≢ chip
            → slice_index freed.new.counts.items cell ≡ slice_index freed.old.counts.items cell }
    {
        let cells = cell_nets.cells_of(net as usize);
        let count = self.held.at(net as usize);
        self.held.set(net as usize, count + 1);
        if count == 0 {
            self.met.add(cells);
            freed.add_on(cells, chip_of, chip);
        } else if count == 1 {
            freed.take_on(cells, chip_of, chip);
        }
    }

    /// One cell fewer of the chip drives or reads a net.
    fn lower(
        &mut self,
        cell_nets: &CellNets,
        net: u32,
        chip_of: &[u32],
        chip: u32,
        freed: &mut Tally,
    )
        requires long { length self.old.held.counts.items ≡ cell_nets.now.nets }
        requires within { net < cell_nets.now.nets }
        requires there { 1 ≤ slice_index self.old.held.counts.items net }
        requires gains { AreGains cell_nets.now chip_of.now chip self.old freed.old.counts.items }
        ensures cells { self.new.cells ≡ self.old.cells }
        ensures held { self.new.held.counts.items ≡ slice_set self.old.held.counts.items net
            (slice_index self.old.held.counts.items net - 1) }
        ensures gains { AreGains cell_nets.now chip_of.now chip self.new freed.new.counts.items }
        ensures others { (cell : ℕ) → slice_index chip_of.now cell ≢ chip
            → slice_index freed.new.counts.items cell ≡ slice_index freed.old.counts.items cell }
    {
        let cells = cell_nets.cells_of(net as usize);
        let count = self.held.at(net as usize);
        self.held.set(net as usize, count - 1);
        if count == 1 {
            self.met.take(cells);
            freed.take_on(cells, chip_of, chip);
        } else if count == 2 {
            freed.add_on(cells, chip_of, chip);
        }
    }
}

//! The nets of the cells, and the cells of the nets.
ghost use Rattle.std.specs.Prelude.{◌≡◌, ◌+◌, ◌<◌, ◌≤◌, ℕ, [], length, slice_index_or, IfOk};
ghost use Rattle.std.specs.List.{All};
ghost use Rattle.vw_net.specs.Cells.{read_nets};
ghost use Rattle.vw_part.specs.Steps.CellNets.{AreNetsOf, AreCellNets, AreCellsOf, AreNetCells, times_among};
ghost use Rattle.vw_net.specs.declared.limits.TheConstants.{MOST_CELLS, MOST_INPUTS};

use crate::net_cells::NetCells;
use std::alloc::{AllocError, Global};
use vw_net::{Cell, Flat, Sequence};

/// The nets that a cell reads, one by one.
fn reads(alloc: Global, cell: &Cell) -> Result<Vec<u32>, AllocError>
    ensures { IfOk result (λ nets. nets.items ≡ read_nets cell.now) }
{
    match cell {
        Cell::Gate { ins, .. } => ins.as_slice().to_vec(alloc),
        Cell::Latch { d, .. } => [*d].as_slice().to_vec(alloc),
    }
}

/// The nets that a cell drives or reads, each once; `own` is the one that it drives.
fn nets_of_cell(alloc: Global, own: u32, cell: &Cell) -> Result<Sequence<u32>, AllocError>
    ensures { IfOk result (AreNetsOf own cell.now) }
{
    let mut nets = reads(alloc, cell)?;
    nets.push(own)?;
    nets.sort()?;
    nets.dedup();
    Ok(Sequence::of(nets))
}

/// The nets that each cell drives or reads, and for each net these cells.
pub struct CellNets {
    /// How many nets there are.
    pub nets: usize,
    /// Those of each cell, each once.
    pub of_cells: Vec<Sequence<u32>>,
    /// The same, turned round.
    pub net_cells: NetCells,
    ghost few_nets: { nets ≤ MOST_INPUTS + MOST_CELLS },
    ghost few_cells: { length of_cells.items ≤ MOST_CELLS },
    ghost within: { All (λ own. All (λ net. net < nets) own) of_cells.items },
    ghost once: { All (λ own. (net : ℕ) → times_among own net ≤ 1) of_cells.items },
    ghost turned: { AreNetCells of_cells.items nets net_cells.of_nets.items },
}

impl Drop for CellNets {
    fn drop(self) {
        let CellNets {
            nets: _,
            of_cells: _,
            net_cells: _,
        } = self;
    }
}

impl CellNets {
    /// Those of a netlist.
    pub fn of(alloc: Global, flat: &Flat) -> Result<Self, AllocError>
        ensures nets { IfOk result (λ cell_nets. cell_nets.nets ≡ flat.now.inputs + length flat.now.cells) }
        ensures cell_nets { IfOk result
            (λ cell_nets. AreCellNets flat.now.inputs flat.now.cells cell_nets.of_cells.items) }
    {
        let mut of_cells = Vec::with_capacity(alloc, flat.cells().len())?;
        for (number, cell) in flat.cells().iter().enumerate() {
            let nets = nets_of_cell(alloc, flat.inputs() + number as u32, cell)?;
            of_cells.push(nets)?;
        }
        let nets = flat.inputs() as usize + flat.cells().len();
        let net_cells = NetCells::of(alloc, nets, of_cells.as_slice())?;
        Ok(CellNets {
            nets,
            of_cells,
            net_cells,
        })
    }

    /// How many cells there are.
    pub fn cells(&self) -> usize
        ensures { result ≡ length self.now.of_cells.items }
    {
        self.of_cells.len()
    }

    /// The nets of a cell.
    pub fn at(&self, cell: usize) -> &[u32]
        requires { cell < length self.now.of_cells.items }
        ensures { result.now ≡ slice_index_or self.now.of_cells.items cell [] }
    {
        self.of_cells[cell].as_slice()
    }

    /// The cells of a net.
    pub fn cells_of(&self, net: usize) -> &[u32]
        requires { net < self.now.nets }
        ensures { AreCellsOf self.now.of_cells.items net result.now }
    {
        self.net_cells.of_nets[net].as_slice()
    }
}

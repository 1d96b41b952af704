//! The cells of the nets.
ghost use Rattle.std.specs.Prelude.{◌≡◌, ◌+◌, ◌<◌, ◌≤◌, ◌^◌, ◌==◌, ℕ, [], length, slice_index_or, IfOk, OnOk, if◌then◌else◌};
ghost use Rattle.std.specs.Global.{Vec};
ghost use Rattle.std.specs.List.{All};
ghost use Rattle.vw_part.specs.Steps.CellNets.{AreNetCells, times_among};

use std::alloc::{AllocError, Global};
use vw_net::Sequence;

/// For each net the cells that drive or read it.
pub struct NetCells {
    pub of_nets: Vec<Vec<u32>>,
}

impl Drop for NetCells {
    fn drop(self) {
        let NetCells { of_nets: _ } = self;
    }
}

impl NetCells {
    /// Those of so many nets, given the nets of each cell.
    pub fn of(alloc: Global, nets: usize, of_cells: &[Sequence<u32>]) -> Result<Self, AllocError>
        requires few { length of_cells.now < 2 ^ 32 }
        requires within { All (λ own. All (λ net. net < nets) own) of_cells.now }
        ensures { IfOk result (λ net_cells. AreNetCells of_cells.now nets net_cells.of_nets.items) }
    {
        let mut net_cells = NetCells::none(alloc, nets)?;
        for (cell, own) in of_cells.iter().enumerate() {
            net_cells.list(cell as u32, own.as_slice())?;
        }
        Ok(net_cells)
    }

    /// No cells, for so many nets.
    fn none(alloc: Global, nets: usize) -> Result<Self, AllocError>
        ensures long { IfOk result (λ net_cells. length net_cells.of_nets.items ≡ nets) }
        ensures none { IfOk result (λ net_cells. All (λ cells. cells.items ≡ []) net_cells.of_nets.items) }
    {
        let mut of_nets = Vec::with_capacity(alloc, nets)?;
        for _net in 0..nets {
            let cells = Vec::new(alloc);
            of_nets.push(cells)?;
        }
        Ok(NetCells { of_nets })
    }

    /// Lists a cell at each of its nets.
    fn list(&mut self, cell: u32, own: &[u32]) -> Result<(), AllocError>
        requires within { All (λ net. net < length self.old.of_nets.items) own.now }
        ensures long { length self.new.of_nets.items ≡ length self.old.of_nets.items }
        ensures each { OnOk result ((net : ℕ) (default : Vec ℕ) (other : ℕ) → net < length self.old.of_nets.items
            → times_among (slice_index_or self.new.of_nets.items net default).items other
            ≡ times_among (slice_index_or self.old.of_nets.items net default).items other
            + (if cell == other then times_among own.now net else 0)) }
    {
        for net in own {
            self.of_nets[*net as usize].push(cell)?;
        }
        Ok(())
    }
}

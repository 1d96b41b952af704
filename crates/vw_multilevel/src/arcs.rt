//! The arcs of critical paths, as nets of two cells. In the field: timing-driven partitioning by weights of nets (Burstein and
//! Youssef 1985), with an arc for each sink of a net.
use crate::level::Level;
use crate::nets::{cells_of_nets, level_of};
use crate::rows::NumberRows;
use crate::timing::Timing;
use crate::urgency::Urgency;
use std::alloc::{AllocError, Global};
use vw_net::{Cell, Flat, Ordered};
use vw_plan::Board;

/// Arcs that are taken from a design, as rows of the cell that drives a net and a cell that reads it.
#[derive(Drop)]
struct Arcs<'a> {
    flat: &'a Flat,
    timing: &'a Timing<'a>,
    /// An arc counts where its slack is less than the longest path divided by this number.
    shares: u32,
    /// As how many nets an arc without slack counts.
    times: u32,
    /// Each arc as often as it is critical.
    rows: NumberRows,
}

impl<'a> Arcs<'a> {
    /// Adds the arc of a cell's read, if another cell drives what it reads.
    fn add(&mut self, cell: u32, read: u32, rest: u32) -> Result<(), AllocError> {
        let inputs = self.flat.inputs();
        let net = inputs.saturating_add(cell);
        if read < inputs || read == net {
            return Ok(());
        }
        let weight = self.timing.weight(read, net, rest, self.shares, self.times);
        for _time in 0..weight {
            self.rows.push(read.saturating_sub(inputs))?;
            self.rows.push(cell)?;
            self.rows.end_row()?;
        }
        Ok(())
    }

    /// Adds the arcs of all that a cell reads.
    fn add_cell(&mut self, number: u32, cell: &Cell) -> Result<(), AllocError> {
        match cell {
            Cell::Gate { ins, .. } => {
                let net = self.flat.inputs().saturating_add(number);
                let rest = self.timing.rest(net);
                for read in ins.as_slice() {
                    self.add(number, *read, rest)?;
                }
            }
            Cell::Latch { d, .. } => self.add(number, *d, 0)?,
        }
        Ok(())
    }

    /// Adds the arcs of all cells, or those of the first ones where there are more than so many.
    fn add_all(&mut self, most: u32) -> Result<(), AllocError> {
        let flat = self.flat;
        let mut number: u32 = 0;
        for cell in flat.cells() {
            if self.rows.len() > most {
                return Ok(());
            }
            self.add_cell(number, cell)?;
            number = number.saturating_add(1);
        }
        Ok(())
    }
}

/// The arcs of a design whose cells are on these chips: those with the least slack, and none where too many have little. There
/// are at most about two for each cell.
fn arcs_of(
    alloc: Global,
    ordered: &Ordered,
    board: &Board,
    chip_of: &[u32],
    urgency: Urgency,
) -> Result<NumberRows, AllocError> {
    if urgency.is_none() {
        return NumberRows::new(alloc);
    }
    let flat = ordered.flat();
    let timing = Timing::of(alloc, ordered, board, chip_of)?;
    let cells = u32::try_from(flat.cells().len()).unwrap_or(u32::MAX);
    let most = cells.saturating_mul(2);
    let mut shares = urgency.shares();
    for _try in 0..3u32 {
        let mut arcs = Arcs {
            flat,
            timing: &timing,
            shares,
            times: urgency.times(),
            rows: NumberRows::new(alloc)?,
        };
        arcs.add_all(most)?;
        if arcs.rows.len() <= most {
            return Ok(arcs.rows);
        }
        shares = shares.saturating_mul(2);
    }
    NumberRows::new(alloc)
}

/// The level at which each vertex is a cell, with the nets of a design whose cells are on these chips, and with the arcs of its
/// critical paths.
pub fn timed_level(
    alloc: Global,
    ordered: &Ordered,
    board: &Board,
    chip_of: &[u32],
    urgency: Urgency,
) -> Result<Level, AllocError> {
    let flat = ordered.flat();
    let mut of_net = cells_of_nets(alloc, flat)?;
    let arcs = arcs_of(alloc, ordered, board, chip_of, urgency)?;
    for arc in 0..arcs.len() {
        of_net.push_all(arcs.row(arc))?;
        of_net.end_row()?;
    }
    level_of(alloc, flat, &of_net)
}

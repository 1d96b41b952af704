//! What the period of a plan waits for longest.
ghost use Rattle.std.specs.Prelude.{◌≡◌, ◌≤◌, Some, slice_get};
ghost use Rattle.vw_chain.specs.Chains.{IsDue};
ghost use Rattle.vw_chain.specs.Steps.{EndsSo, IsCellDue, WiresAreDue};
ghost use Rattle.vw_chain.specs.Timing.{planned_of};

use crate::chain::End;
use crate::timed::Timed;
use vw_net::Cell;

/// A microcycle, and what is waited for until then; nothing where it is 0.
#[derive(Clone, Copy)]
pub struct Due {
    pub last: u64,
    pub end: Option<End>,
}

/// The same, or a wire where it arrives later.
fn with_wire(timed: &Timed, due: Due, number: usize, arrival: u64) -> Due
    requires arrival { slice_get timed.now.arrivals.now number ≡ Some arrival }
    requires ends { EndsSo (planned_of timed.now) due.last due.end }
    ensures ends { EndsSo (planned_of timed.now) result.last result.end }
    ensures later { due.last ≤ result.last }
    ensures due { arrival ≤ result.last }
{
    let _ = timed;
    if due.last < arrival {
        Due {
            last: arrival,
            end: Some(End::Wire { number }),
        }
    } else {
        due
    }
}

/// The wire that arrives last.
fn last_wire(timed: &Timed) -> Due
    ensures ends { EndsSo (planned_of timed.now) result.last result.end }
    ensures wires { WiresAreDue (planned_of timed.now) result.last }
{
    let mut due = Due { last: 0, end: None };
    for (number, arrival) in timed.arrivals.iter().enumerate() {
        due = with_wire(timed, due, number, *arrival);
    }
    due
}

/// The same, or what a cell needs at the end of a clock where that comes later: a latch what it reads, and a gate nothing.
fn with_cell(timed: &Timed, due: Due, number: usize, cell: &Cell) -> Due
    requires cell { slice_get timed.now.wired.now.ordered.now.flat.cells number ≡ Some cell.now }
    requires ends { EndsSo (planned_of timed.now) due.last due.end }
    ensures ends { EndsSo (planned_of timed.now) result.last result.end }
    ensures later { due.last ≤ result.last }
    ensures due { IsCellDue (planned_of timed.now) result.last number cell.now }
{
    match cell {
        Cell::Gate { .. } => due,
        Cell::Latch { d, .. } => {
            let usable = timed.usable(timed.wired.plan.chip_of()[number], *d);
            if due.last < usable {
                Due {
                    last: usable,
                    end: Some(End::Latch { number, reads: *d }),
                }
            } else {
                due
            }
        }
    }
}

/// The wire or the latch that is waited for longest.
pub fn last_due(timed: &Timed) -> Due
    ensures ends { EndsSo (planned_of timed.now) result.last result.end }
    ensures due { IsDue (planned_of timed.now) result.last }
{
    let mut due = last_wire(timed);
    for (number, cell) in timed.wired.ordered.flat().cells().iter().enumerate() {
        due = with_cell(timed, due, number, cell);
    }
    due
}

//! What faults are graded against.
ghost use Rattle.std.specs.Prelude.{◌≡◌, ◌≤◌, length};
ghost use Rattle.std.specs.List.{All};
ghost use Rattle.vw_net.specs.Cells.{latch_count};
ghost use Rattle.vw_net.specs.History.{outputs_of};

use vw_net::{Bits, Ordered, Rows};

/// What stays the same while faults are graded: the netlist, the state before the first clock, the rows, and the outputs of each
/// clock where nothing is stuck; and how many of the rows are run, the first ones.
#[derive(Drop)]
pub struct Grading<'a> {
    pub ordered: &'a Ordered,
    pub start: &'a Bits,
    pub rows: &'a Rows,
    pub plain: &'a Rows,
    pub count: usize,
    ghost latches: { length start.now ≡ latch_count ordered.now.flat.cells },
    ghost columns: { All (λ row. length row ≡ ordered.now.flat.inputs) rows.now },
    ghost plain_is: { plain.now ≡ outputs_of ordered.now.flat start.now rows.now },
    ghost counted: { count ≤ length rows.now },
}

impl<'a> Grading<'a> {
    /// How many rows are run.
    pub fn row_count(&self) -> usize
        ensures { result ≡ self.now.count }
    {
        self.count
    }
}

ghost use Rattle.std.specs.Prelude.{◌≡◌};

use vw_net::Rows;
use vw_prog::{Code, Share};

/// A node of a board in a job. It has a slot for the bit of each net that it knows, and records the outputs or its latches at the
/// end of each clock. It borrows its code and what it may see of the job.
pub struct Node<'a> {
    /// Its number, and what it may see of the job.
    pub share: Share<'a>,
    /// What it does in one clock.
    pub code: &'a Code,
    /// How many clocks it has finished.
    pub clock: u64,
    /// How many actions of the present clock it has made.
    pub made: u64,
    /// The place at which each shift loop of its code stands.
    pub places: Vec<usize>,
    /// The bit of each slot.
    pub slots: Vec<bool>,
    /// Room for the next bits of its latches.
    pub next: Vec<bool>,
    /// What it has recorded, clock by clock, and behind it the rows of the clocks to come.
    pub rows: Rows,
}

impl Drop for Node<'_> {
    fn drop(self) {
        let Node {
            share: _,
            code: _,
            clock: _,
            made: _,
            places: _,
            slots: _,
            next: _,
            rows: _,
        } = self;
    }
}

impl<'a> Node<'a> {
    /// A row for each clock, as `rows` shows them, given up. It takes no memory.
    pub fn into_rows(self) -> Rows
        ensures { result ≡ self.entry.rows }
    {
        let Node {
            share: _,
            code: _,
            clock: _,
            made: _,
            places: _,
            slots: _,
            next: _,
            rows,
        } = self;
        rows
    }
}

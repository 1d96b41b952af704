ghost use Rattle.std.specs.Prelude.{◌≡◌, ◌≤◌, ◌<◌, ◌+◌, ◌^◌, ◌==◌, length, Some, None, if◌then◌else◌, option_map};
ghost use Rattle.std.specs.List.{All};
ghost use Rattle.vw_net.specs.Cells.{latch_count};

use std::alloc::Global;
use vw_net::{Bits, Rows};
use vw_plan::Checked;

/// Some clocks of a design on a board, by a sound plan: the clock of its first row, the latches before it, and the rows.
pub struct Job {
    pub checked: Checked,
    /// The number of its first clock.
    pub first: u64,
    /// The value of each latch before the first clock, in the order of the cells.
    pub start: Bits,
    /// The inputs of each clock.
    pub rows: Rows,
    ghost all_latches: { length start ≡ latch_count checked.ordered.flat.cells },
    ghost even: { All (λ row. length row ≡ checked.ordered.flat.inputs) rows },
    ghost short: { first + length rows < 2 ^ 32 },
}

impl Drop for Job {
    fn drop(self) {
        let Job {
            checked: _,
            first: _,
            start: _,
            rows: _,
        } = self;
    }
}

impl Job {
    /// The job of these rows. It takes no memory.
    pub fn make(checked: Checked, first: u64, start: Bits, rows: Rows) -> Self
        requires all_latches { length start ≡ latch_count checked.ordered.flat.cells }
        requires even { All (λ row. length row ≡ checked.ordered.flat.inputs) rows }
        requires short { first + length rows < 2 ^ 32 }
        ensures checked { result.checked ≡ checked }
        ensures first { result.first ≡ first }
        ensures start { result.start ≡ start }
        ensures rows { result.rows ≡ rows }
    {
        Job {
            checked,
            first,
            start,
            rows,
        }
    }

    /// Makes it the job of other rows, of the same design on the same board. It takes no memory.
    pub fn renew(&mut self, first: u64, start: Bits, rows: Rows)
        requires all_latches { length start ≡ latch_count self.old.checked.ordered.flat.cells }
        requires even { All (λ row. length row ≡ self.old.checked.ordered.flat.inputs) rows }
        requires short { first + length rows < 2 ^ 32 }
        ensures checked { self.new.checked ≡ self.old.checked }
        ensures first { self.new.first ≡ first }
        ensures start { self.new.start ≡ start }
        ensures rows { self.new.rows ≡ rows }
    {
        self.first = first;
        self.start = start;
        self.rows = rows;
    }

    /// The number of the clock behind its last one.
    pub fn next(&self) -> u64
        ensures { result ≡ self.now.first + length self.now.rows }
    {
        self.first + self.rows.len() as u64
    }

    /// Makes it a job of no clocks, behind which the clock with this number comes. Its start bits stay. It takes no memory.
    pub fn stand_before(&mut self, alloc: Global, clock: u64)
        requires { clock < 2 ^ 32 }
        ensures checked { self.new.checked ≡ self.old.checked }
        ensures next { self.new.first + length self.new.rows ≡ clock }
    {
        self.first = clock;
        self.rows = Rows::new(alloc);
    }

    /// The design on its board, with its plan.
    pub fn checked(&self) -> &Checked
        ensures { result.now ≡ self.now.checked }
    {
        &self.checked
    }

    /// What a node may see of the job: the host has the rows, a chip hasn't. It takes no memory.
    pub fn share(&self, node: u32) -> Share<'_>
        requires { node ≤ self.now.checked.board.chips }
        ensures node { result.node ≡ node }
        ensures first { result.first ≡ self.now.first }
        ensures clocks { result.clocks ≡ length self.now.rows }
        ensures checked { result.checked.now ≡ self.now.checked }
        ensures start { result.start.now ≡ self.now.start }
        ensures rows { option_map (λ rows. rows.now) result.rows
            ≡ (if node == 0 then Some self.now.rows else None) }
    {
        Share {
            node,
            first: self.first,
            clocks: self.rows.len() as u64,
            checked: &self.checked,
            start: &self.start,
            rows: if node == 0 { Some(&self.rows) } else { None },
        }
    }
}

/// What a node may see of a job.
#[derive(Clone, Copy)]
pub struct Share<'a> {
    pub node: u32,
    /// The number of the job's first clock.
    pub first: u64,
    /// The number of its clocks.
    pub clocks: u64,
    pub checked: &'a Checked,
    /// The value of each latch before the first clock, in the order of the cells.
    pub start: &'a Bits,
    /// The inputs of each clock, where the node is the host.
    pub rows: Option<&'a Rows>,
    ghost is_node: { node ≤ checked.now.board.chips },
    ghost all_latches: { length start.now ≡ latch_count checked.now.ordered.flat.cells },
    ghost short: { first + clocks < 2 ^ 32 },
}

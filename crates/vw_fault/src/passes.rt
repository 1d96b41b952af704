//! Grading: which faults rows don't reveal.
ghost use Rattle.std.specs.Prelude.{◌≡◌, ◌<◌, ◌≤◌, length, take, IfOk};
ghost use Rattle.std.specs.List.{All};
ghost use Rattle.vw_net.specs.Cells.{latch_count};
ghost use Rattle.vw_net.specs.Gathered.{gather};
ghost use Rattle.vw_fault.specs.Steps.Groups.{net_count, open_of, rows_of};
ghost use Rattle.vw_fault.specs.Shares.{open_shared, shared_faults};
ghost use Rattle.vw_fault.specs.Stuck.{net_faults, open_faults};

use crate::grading::Grading;
use crate::merged::{marked_faults, with_unmarked};
use crate::open::Open;
use crate::outputs::plain_outputs;
use crate::reached::reached_nets;
use crate::share::Share;
use crate::workers::open_among;
use std::alloc::{AllocError, Global};
use std::marker::Sync;
use std::thread::Threads;
use vw_net::{Bits, Ordered, Rows};

/// So many rows are run first, and each time four times as many for the faults that are left, up to a quarter of all
/// rows. So a fault that no row reveals costs at most 4/3 of a run of all rows.
const FIRST_ROWS: usize = 16;

/// The stuck nets that the rows don't reveal, by net and then bit 0 before bit 1. Faults are run 64 at a time, by so many
/// workers at most. It takes 24 bytes a net and 8 a latch for each worker, 8 bytes a fault, and a byte for each output of
/// each clock.
pub fn grade<R: Threads + Sync>(
    rt: &R,
    alloc: Global,
    ordered: &Ordered,
    start: &Bits,
    rows: &Rows,
    workers: u32,
) -> Result<Vec<Open>, AllocError>
    requires latches { length start.now ≡ latch_count ordered.now.flat.cells }
    requires columns { All (λ row. length row ≡ ordered.now.flat.inputs) rows.now }
    requires workers { (1 ≤ workers) × (workers ≤ 64) }
    ensures { IfOk result (λ left. left.items ≡ open_faults ordered.now.flat start.now rows.now) }
{
    let flat = ordered.flat();
    let faults = all_faults(alloc, flat.inputs() + flat.cells().len() as u32)?;
    let plain = plain_outputs(alloc, ordered, start, rows)?;
    let grading = Grading {
        ordered,
        start,
        rows,
        plain: &plain,
        count: rows.len(),
    };
    open_with_unreached(rt, alloc, &grading, &faults, workers)
}

/// What rows don't reveal of a share of the faults.
#[derive(Drop)]
pub struct GradedShare {
    /// How many faults the share has.
    pub count: usize,
    /// Those that the rows don't reveal.
    pub left: Vec<Open>,
}

/// The stuck nets of a share that the rows don't reveal, and how many the share has. All else is as in `grade`.
pub fn grade_share<R: Threads + Sync>(
    rt: &R,
    alloc: Global,
    ordered: &Ordered,
    share: Share,
    start: &Bits,
    rows: &Rows,
    workers: u32,
) -> Result<GradedShare, AllocError>
    requires latches { length start.now ≡ latch_count ordered.now.flat.cells }
    requires columns { All (λ row. length row ≡ ordered.now.flat.inputs) rows.now }
    requires workers { (1 ≤ workers) × (workers ≤ 64) }
    ensures count { IfOk result (λ graded. graded.count
        ≡ length (shared_faults share.number share.shares ordered.now.flat)) }
    ensures left { IfOk result (λ graded. graded.left.items
        ≡ open_shared share.number share.shares ordered.now.flat start.now rows.now) }
{
    let flat = ordered.flat();
    let all = all_faults(alloc, flat.inputs() + flat.cells().len() as u32)?;
    let faults = share.of(&all);
    let plain = plain_outputs(alloc, ordered, start, rows)?;
    let grading = Grading {
        ordered,
        start,
        rows,
        plain: &plain,
        count: rows.len(),
    };
    Ok(GradedShare {
        count: faults.len(),
        left: open_with_unreached(rt, alloc, &grading, faults, workers)?,
    })
}

/// The faults that the rows don't reveal. Those of nets that reach no output aren't run.
fn open_with_unreached<R: Threads + Sync>(
    rt: &R,
    alloc: Global,
    grading: &Grading,
    faults: &[Open],
    workers: u32,
) -> Result<Vec<Open>, AllocError>
    requires workers { workers ≤ 64 }
    requires within { All (λ fault. fault.net < net_count grading.now) faults.now }
    ensures { IfOk result (λ left. left.items ≡ open_of grading.now faults.now) }
{
    let marks = reached_nets(alloc, grading.ordered.flat())?;
    let reached = marked_faults(alloc, faults, &marks)?;
    let left = open_in_passes(rt, alloc, grading, reached, workers)?;
    with_unmarked(alloc, faults, &marks, &left)
}

/// Both faults of each net.
fn all_faults(alloc: Global, nets: u32) -> Result<Vec<Open>, AllocError>
    ensures { IfOk result (λ faults. faults.items ≡ gather net_faults nets) }
{
    let mut faults = Vec::new(alloc);
    for net in 0..nets {
        faults.push(Open { net, bit: false })?;
        faults.push(Open { net, bit: true })?;
    }
    Ok(faults)
}

/// The faults that all rows don't reveal: what the first rows reveal isn't run any further.
fn open_in_passes<R: Threads + Sync>(
    rt: &R,
    alloc: Global,
    grading: &Grading,
    faults: Vec<Open>,
    workers: u32,
) -> Result<Vec<Open>, AllocError>
    requires workers { workers ≤ 64 }
    requires within { All (λ fault. fault.net < net_count grading.now) faults.items }
    ensures { IfOk result (λ left. left.items ≡ open_of grading.now faults.items) }
{
    let mut left = faults;
    let all = grading.row_count();
    let mut count = FIRST_ROWS;
    while count <= all / 4 {
        left = open_among(rt, alloc, &first_rows(grading, count), &left, workers)?;
        count = count.saturating_mul(4);
    }
    open_among(rt, alloc, grading, &left, workers)
}

/// The same for the first so many rows.
fn first_rows<'a>(grading: &Grading<'a>, count: usize) -> Grading<'a>
    requires { count ≤ grading.now.count }
    ensures ordered { result.ordered.now ≡ grading.now.ordered.now }
    ensures start { result.start.now ≡ grading.now.start.now }
    ensures rows { rows_of result ≡ take count (rows_of grading.now) }
    ensures count { result.count ≡ count }
{
    Grading {
        ordered: grading.ordered,
        start: grading.start,
        rows: grading.rows,
        plain: grading.plain,
        count,
    }
}

//! Faults of nets that reach an output, and the faults of all nets.
ghost use Rattle.std.specs.Prelude.{◌≡◌, Bool, not, ◌||◌, filter, slice_get, Some, IfOk};
ghost use Rattle.std.specs.Bool.{OnTrue, OnFalse};
ghost use Rattle.vw_fault.specs.declared.open.Open.{Open};
ghost use Rattle.vw_fault.specs.Steps.Reaching.{is_marked};

use crate::open::Open;
use crate::reached::is_marked;
use std::alloc::{AllocError, Global};

/// The faults of marked nets.
pub fn marked_faults(
    alloc: Global,
    faults: &[Open],
    marks: &[bool],
) -> Result<Vec<Open>, AllocError>
    ensures { IfOk result (λ marked. marked.items
        ≡ filter (λ fault. is_marked marks.now fault.net) faults.now) }
{
    let mut marked = Vec::new(alloc);
    for fault in faults {
        if is_marked(marks, fault.net) {
            marked.push(*fault)?;
        }
    }
    Ok(marked)
}

/// Whether a fault stands at a place.
fn is_at(faults: &[Open], place: usize, fault: Open) -> bool
    ensures yes { OnTrue result (slice_get faults.now place ≡ Some fault) }
    ensures no { OnFalse result (¬ slice_get faults.now place ≡ Some fault) }
{
    match faults.get(place) {
        Some(one) => one.net == fault.net && one.bit == fault.bit,
        None => false,
    }
}

/// Where some of the faults of marked nets are left, these and the faults of other nets, in the order of the faults.
pub fn with_unmarked(
    alloc: Global,
    faults: &[Open],
    marks: &[bool],
    left: &[Open],
) -> Result<Vec<Open>, AllocError>
    ensures { (test : Open → Bool)
        → left.now ≡ filter test (filter (λ fault. is_marked marks.now fault.net) faults.now)
        → IfOk result (λ all. all.items
        ≡ filter (λ fault. not (is_marked marks.now fault.net) || test fault) faults.now) }
{
    let mut all = Vec::new(alloc);
    let mut next = 0;
    for fault in faults {
        if !is_marked(marks, fault.net) {
            all.push(*fault)?;
            continue;
        }
        if is_at(left, next, *fault) {
            all.push(*fault)?;
            next += 1;
        }
    }
    Ok(all)
}

//! Groups one after the other, and by several workers at the same time.
ghost use Rattle.std.specs.Prelude.{◌≡◌, ◌<◌, ◌≤◌, length, IfOk};
ghost use Rattle.std.specs.List.{All};
ghost use denote.Param.Send.{IsSync};
ghost use Rattle.vw_fault.specs.Steps.Groups.{net_count, open_of};

use crate::grading::Grading;
use crate::group::{LANES, grade_group};
use crate::open::Open;
use std::alloc::{AllocError, Global};
use std::marker::Sync;
use std::thread::{Threads, join};

/// The faults that the rows don't reveal, in the order of the faults: group after group.
fn open_in_turn(alloc: Global, grading: &Grading, faults: &[Open]) -> Result<Vec<Open>, AllocError>
    requires { All (λ fault. fault.net < net_count grading.now) faults.now }
    ensures { IfOk result (λ left. left.items ≡ open_of grading.now faults.now) }
{
    let mut left = Vec::new(alloc);
    let mut rest = faults;
    while !rest.is_empty() {
        let (group, after) = rest.split_at(rest.len().min(LANES));
        grade_group(alloc, grading, group, &mut left)?;
        rest = after;
    }
    Ok(left)
}

/// How many of the faults are for the first so many of these workers: whole groups.
fn share(faults: usize, few: u32, workers: u32) -> usize
    requires few { few ≤ 64 }
    requires workers { 0 < workers }
    ensures { result ≤ faults }
{
    let groups = faults / LANES;
    (groups * few as usize / workers as usize).min(groups) * LANES
}

/// The same by so many workers at most, each of which has its own part of the faults.
#[cycle(halves)]
pub fn open_among<R: Threads + Sync>(
    rt: &R,
    alloc: Global,
    grading: &Grading,
    faults: &[Open],
    workers: u32,
) -> Result<Vec<Open>, AllocError>
    requires workers { workers ≤ 64 }
    requires within { All (λ fault. fault.net < net_count grading.now) faults.now }
    ensures { IfOk result (λ left. left.items ≡ open_of grading.now faults.now) }
{
    if workers < 2 || faults.len() <= LANES {
        return open_in_turn(alloc, grading, faults);
    }
    let few = workers / 2;
    let more = workers - few;
    let (front, back) = faults.split_at(share(faults.len(), few, workers));
    let first = move || -> Result<Vec<Open>, AllocError>
        requires { IsSync R.row × (few ≤ 64)
            × All (λ fault. fault.net < net_count grading.now) front.now }
        ensures { IfOk result (λ left. left.items ≡ open_of grading.entry.now front.entry.now) }
    { open_among(rt, alloc, grading, front, few) };
    let second = move || -> Result<Vec<Open>, AllocError>
        requires { IsSync R.row × (more ≤ 64)
            × All (λ fault. fault.net < net_count grading.now) back.now }
        ensures { IfOk result (λ left. left.items ≡ open_of grading.entry.now back.entry.now) }
    { open_among(rt, alloc, grading, back, more) };
    let (one, other) = join(rt, first, second);
    let mut left = one?;
    let mut rest = other?;
    left.append(&mut rest)?;
    Ok(left)
}

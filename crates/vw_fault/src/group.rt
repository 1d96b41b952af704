//! Faults of one group, each in a lane of its own.
ghost use Rattle.std.specs.Prelude.{◌≡◌, ◌<◌, ◌≤◌, ◌+◌, ◌++◌, ◌||◌, ℕ, false, length, map, slice_get, slice_index_or, Some, IfOk, OnOk};
ghost use Rattle.std.specs.List.{All};
ghost use Rattle.vw_net.specs.Cells.{latch_count};
ghost use Rattle.vw_net.specs.TruthTable.{bit_of};
ghost use Rattle.vw_fault.specs.declared.open.Open.{Open};
ghost use Rattle.vw_fault.specs.Found.{found_outputs};
ghost use Rattle.vw_fault.specs.Steps.Groups.{is_seen, left_open, net_count, open_of, plain_of, rows_of};
ghost use Rattle.vw_fault.specs.Steps.Lanes.{find_in, lane_bits};
ghost use Rattle.vw_fault.specs.Stuck.{bits_differ, clocks_differ};

use crate::clock::clock;
use crate::grading::Grading;
use crate::open::Open;
use crate::stuck::Stuck;
use crate::words::{Words, spread};
use std::alloc::{AllocError, Global};
use vw_net::{Bits, bit_of};

/// How many faults are run at the same time.
pub const LANES: usize = 64;

/// The faults of a group that the rows don't reveal are put behind others. It takes 24 bytes a net and 8 a latch.
pub fn grade_group(
    alloc: Global,
    grading: &Grading,
    faults: &[Open],
    left: &mut Vec<Open>,
) -> Result<(), AllocError>
    requires few { length faults.now ≤ 64 }
    requires within { All (λ fault. fault.net < net_count grading.now) faults.now }
    ensures { OnOk result (left.new.items ≡ left.old.items ++ open_of grading.now faults.now) }
{
    let seen = seen_faults(alloc, grading, faults)?;
    left_open(faults, seen, left)
}

/// In the lane of each fault whether the rows reveal it.
fn seen_faults(alloc: Global, grading: &Grading, faults: &[Open]) -> Result<u64, AllocError>
    requires few { length faults.now ≤ 64 }
    requires within { All (λ fault. fault.net < net_count grading.now) faults.now }
    ensures { IfOk result (λ seen. (lane : ℕ) (fault : Open) → slice_get faults.now lane ≡ Some fault
        → bit_of seen lane ≡ is_seen grading.now fault) }
{
    let flat = grading.ordered.flat();
    let nets = flat.inputs() as usize + flat.cells().len();
    let stuck = Stuck::of(alloc, nets, faults)?;
    let mut state = state_words(alloc, grading.start)?;
    let mut words = Words::filled(alloc, 0, nets)?;
    Ok(seen_lanes(
        grading,
        &stuck,
        idle_lanes(faults.len() as u32),
        &mut state,
        &mut words,
    ))
}

/// A word for each bit, with that bit in each lane.
pub fn state_words(alloc: Global, bits: &Bits) -> Result<Words, AllocError>
    ensures length { IfOk result (λ words. length words ≡ length bits.now) }
    ensures bits { IfOk result (λ words. (lane : ℕ) → lane < 64 → lane_bits lane words ≡ bits.now) }
{
    let bits = bits.as_slice();
    let mut words = Words::filled(alloc, 0, bits.len())?;
    for (place, bit) in bits.iter().enumerate() {
        words.set(place, spread(*bit));
    }
    Ok(words)
}

/// The lanes behind the first so many.
fn idle_lanes(used: u32) -> u64
    requires { used ≤ 64 }
    ensures { (lane : ℕ) → lane < used → bit_of result lane ≡ false }
{
    if used == 64 {
        return 0;
    }
    ((1u64 << used) - 1) ^ u64::MAX
}

/// Runs all rows, or as many as it takes until all lanes are seen: the idle ones, and those in which some output differs.
fn seen_lanes(
    grading: &Grading,
    stuck: &Stuck,
    idle: u64,
    state: &mut Words,
    words: &mut Words,
) -> u64
    requires latches { length state.old ≡ latch_count grading.now.ordered.now.flat.cells }
    requires nets { length words.old ≡ net_count grading.now }
    requires kept { length stuck.now.kept ≡ net_count grading.now }
    requires forced { length stuck.now.forced ≡ net_count grading.now }
    ensures { (lane : ℕ) → lane < 64 → bit_of result lane ≡ (bit_of idle lane
        || clocks_differ (found_outputs (find_in stuck.now lane) grading.now.ordered.now.flat
        (lane_bits lane state.old) (rows_of grading.now)) (plain_of grading.now)) }
{
    let ordered = grading.ordered;
    let rows = grading.rows;
    let plain = grading.plain;
    let outputs = ordered.flat().outputs();
    let mut seen = idle;
    for number in 0..grading.count {
        if seen == u64::MAX {
            break;
        }
        clock(ordered, stuck, rows.row(number), state, words);
        seen = differing(outputs, words, plain.row(number), seen);
    }
    seen
}

/// The lanes seen so far, and those in which the bits of these nets differ from the plain ones.
fn differing(outputs: &[u32], words: &Words, plain: &[bool], seen: u64) -> u64
    requires plain { length plain.now ≡ length outputs.now }
    requires within { All (λ net. net < length words.now) outputs.now }
    ensures { (lane : ℕ) → lane < 64 → bit_of result lane ≡ (bit_of seen lane
        || bits_differ (map (λ net. slice_index_or (lane_bits lane words.now) net false) outputs.now) plain.now) }
{
    let mut seen = seen;
    for (place, net) in outputs.iter().enumerate() {
        seen |= words.get(*net as usize) ^ spread(plain[place]);
    }
    seen
}

/// Puts the faults whose lanes aren't seen behind others.
fn left_open(faults: &[Open], seen: u64, left: &mut Vec<Open>) -> Result<(), AllocError>
    requires { length faults.now ≤ 64 }
    ensures { OnOk result (left.new.items ≡ left.old.items ++ left_open seen 0 faults.now) }
{
    for (lane, fault) in faults.iter().enumerate() {
        if !bit_of(seen, lane as u32) {
            left.push(*fault)?;
        }
    }
    Ok(())
}

//! Runs that end behind the first clock in which the last output, their trigger, is 1. In the field: the trigger of a logic
//! analyzer.
ghost use Rattle.std.specs.Prelude.{◌≡◌, ◌≤◌, IfOk, IfSome, is_some, length, map, slice_index_or, take, true};
ghost use Rattle.std.specs.List.{All};
ghost use Rattle.vw_outside.specs.Writes.{WritesOut};
ghost use Rattle.vw_trace.specs.Batches.{FitsRun, WroteClocks, shown_front};
ghost use Rattle.vw_trace.specs.Triggers.{but_last, clocks_until, fires, last_is_1};

use crate::engine::Batch;
use crate::recorder::{Recorder, write_batch};
use std::alloc::{AllocError, Global};
use vw_net::{Bits, Rows};
use vw_outside::{Sink, Unwritten, put_text};

/// Whether the last of some bits is 1.
fn ends_with_1(bits: &[bool]) -> bool
    ensures { result ≡ last_is_1 bits.now }
{
    if bits.is_empty() {
        return false;
    }
    bits[bits.len() - 1]
}

/// How many clocks with these outputs there are up to the first in which the trigger is 1, and with it; nothing where it never
/// is.
fn trigger_at(outputs: &Rows) -> Option<usize>
    ensures fires { fires outputs.now ≡ is_some result }
    ensures clocks { IfSome result (λ clocks. clocks ≡ clocks_until outputs.now) }
    ensures within { IfSome result (λ clocks. clocks ≤ length outputs.now) }
{
    for place in 0..outputs.len() {
        if ends_with_1(outputs.row(place)) {
            return Some(place + 1);
        }
    }
    None
}

/// All bits but the last.
fn all_but_last(bits: &[bool]) -> &[bool]
    ensures { result.now ≡ but_last bits.now }
{
    let (front, _) = bits.split_at(bits.len().saturating_sub(1));
    front
}

/// The first clocks of a batch, so many, without the trigger. It takes memory for them.
fn front_of(alloc: Global, batch: &Batch, clocks: usize) -> Result<Batch, AllocError>
    requires outputs { clocks ≤ length batch.now.outputs }
    requires states { clocks ≤ length batch.now.states }
    ensures outputs { IfOk result (λ front. front.outputs
        ≡ map but_last (take clocks batch.now.outputs)) }
    ensures states { IfOk result (λ front. front.states ≡ take clocks batch.now.states) }
{
    let mut outputs = Rows::new(alloc);
    let mut states = Rows::new(alloc);
    for place in 0..clocks {
        let shown = all_but_last(batch.outputs.row(place));
        outputs.push(shown)?;
        let state = batch.states.row(place);
        states.push(state)?;
    }
    Ok(Batch { outputs, states })
}

/// A copy of these bits.
fn copy_of(alloc: Global, bits: &[bool]) -> Result<Bits, AllocError>
    ensures { IfOk result (λ copy. copy ≡ bits.now) }
{
    Ok(Bits::of(bits.to_vec(alloc)?))
}

/// The latch values behind the first clocks of a batch, so many, behind which the latches have the values `last`. It takes
/// memory for them.
fn state_behind(
    alloc: Global,
    batch: &Batch,
    clocks: usize,
    last: &Bits,
) -> Result<Bits, AllocError>
    ensures { IfOk result (λ state. state ≡ slice_index_or batch.now.states clocks last.now) }
{
    if clocks < batch.states.len() {
        return copy_of(alloc, batch.states.row(clocks));
    }
    copy_of(alloc, last.as_slice())
}

/// Writes down the last clocks of a run, the first of a batch, so many, and what follows them.
fn write_last<R: Recorder, O: Sink>(
    alloc: Global,
    recorder: &mut R,
    batch: &Batch,
    clocks: usize,
    last: &Bits,
    out: &mut O,
) -> Result<(), Unwritten>
    requires clocks { clocks ≡ clocks_until batch.now.outputs }
    requires within { clocks ≤ length batch.now.outputs }
    requires fits { FitsRun true (R.seen recorder.old) batch.now last.now }
    ensures { WritesOut ((R.seen recorder.old).left (shown_front batch.now last.now))
        (O.seen out.old) (O.seen out.new) result }
{
    let front = front_of(alloc, batch, clocks)?;
    let state = state_behind(alloc, batch, clocks, last)?;
    write_batch(alloc, recorder, &front, out)?;
    let rest = recorder.end(alloc, &state);
    put_text(rest, out)
}

/// Writes down the clocks of a batch whose last output is a trigger.
fn write_until<R: Recorder, O: Sink>(
    alloc: Global,
    recorder: &mut R,
    batch: &Batch,
    last: &Bits,
    out: &mut O,
) -> Result<bool, Unwritten>
    requires { FitsRun true (R.seen recorder.old) batch.now last.now }
    ensures { WroteClocks true (R.seen recorder.old) (R.seen recorder.new) batch.now last.now (O.seen out.old)
        (O.seen out.new) result }
{
    match trigger_at(&batch.outputs) {
        Some(clocks) => {
            write_last(alloc, recorder, batch, clocks, last, out)?;
            Ok(true)
        }
        None => {
            let shown = front_of(alloc, batch, batch.outputs.len())?;
            write_batch(alloc, recorder, &shown, out)?;
            Ok(false)
        }
    }
}

/// Writes down the next clocks, behind which the latches have the values `last`, and says whether the run ends in them. With
/// `until` their last output is a trigger, which isn't shown: the run ends behind the first clock in which it is 1, and what
/// follows the last clock is written, too. It takes memory for the text; where there is none, or it wasn't written whole, nothing
/// is known of the recorder.
pub fn write_clocks<R: Recorder, O: Sink>(
    alloc: Global,
    recorder: &mut R,
    until: bool,
    batch: &Batch,
    last: &Bits,
    out: &mut O,
) -> Result<bool, Unwritten>
    requires { FitsRun until (R.seen recorder.old) batch.now last.now }
    ensures { WroteClocks until (R.seen recorder.old) (R.seen recorder.new) batch.now last.now (O.seen out.old)
        (O.seen out.new) result }
{
    if until {
        return write_until(alloc, recorder, batch, last, out);
    }
    write_batch(alloc, recorder, batch, out)?;
    Ok(false)
}

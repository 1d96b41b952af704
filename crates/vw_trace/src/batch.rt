//! A number of clocks, worked out with no memory taken inside a clock.
ghost use Rattle.std.specs.Prelude.{◌≡◌, ◌<◌, ◌+◌, [], false, length, replicate, slice_index_or, slice_set, IfOk};
ghost use Rattle.std.specs.List.{All};
ghost use Rattle.vw_net.specs.Cells.{latch_count};
ghost use Rattle.vw_net.specs.History.{outputs_at, next_state, outputs_of, states_of, state_after};

use crate::engine::Batch;
use std::alloc::{AllocError, Global};
use vw_net::{Bits, Rows};
use vw_sim::Simulator;

/// The clock of a row, whose outputs and latch values before the step are written over the rows at a place.
fn record_clock(
    simulator: &Simulator,
    row: &[bool],
    place: usize,
    state: &mut Bits,
    values: &mut Bits,
    batch: &mut Batch,
)
    requires columns { length row.now ≡ simulator.now.flat.inputs }
    requires latches { length state.old ≡ latch_count simulator.now.flat.cells }
    requires nets { length values.old ≡ simulator.now.flat.inputs + length simulator.now.flat.cells }
    requires outputs { place < length batch.old.outputs }
    requires states { place < length batch.old.states }
    requires output_width { length (slice_index_or batch.old.outputs place [])
        ≡ length simulator.now.flat.outputs }
    requires state_width { length (slice_index_or batch.old.states place []) ≡ length state.old }
    ensures outputs { batch.new.outputs ≡ slice_set batch.old.outputs place
        (outputs_at simulator.now.flat row.now state.old) }
    ensures states { batch.new.states ≡ slice_set batch.old.states place state.old }
    ensures state { state.new ≡ next_state simulator.now.flat row.now state.old }
    ensures nets { length values.new ≡ length values.old }
{
    batch.states.write(place, state.as_slice());
    simulator.step(row, state, values);
    batch
        .outputs
        .pick(place, values.as_slice(), simulator.flat().outputs());
}

/// Clocks for some rows, written over the rows of a batch.
fn record_clocks(
    simulator: &Simulator,
    rows: &Rows,
    state: &mut Bits,
    values: &mut Bits,
    batch: &mut Batch,
)
    requires columns { All (λ row. length row ≡ simulator.now.flat.inputs) rows.now }
    requires latches { length state.old ≡ latch_count simulator.now.flat.cells }
    requires nets { length values.old ≡ simulator.now.flat.inputs + length simulator.now.flat.cells }
    requires outputs { batch.old.outputs
        ≡ replicate (length rows.now) (replicate (length simulator.now.flat.outputs) false) }
    requires states { batch.old.states
        ≡ replicate (length rows.now) (replicate (latch_count simulator.now.flat.cells) false) }
    ensures outputs { batch.new.outputs ≡ outputs_of simulator.now.flat state.old rows.now }
    ensures states { batch.new.states ≡ states_of simulator.now.flat state.old rows.now }
    ensures state { state.new ≡ state_after simulator.now.flat state.old rows.now }
    ensures nets { length values.new ≡ length values.old }
{
    for place in 0..rows.len() {
        record_clock(simulator, rows.row(place), place, state, values, batch);
    }
}

/// Clocks for some rows from a state on. All memory is taken before the first.
pub fn run_batch(
    alloc: Global,
    simulator: &Simulator,
    rows: &Rows,
    state: &mut Bits,
    values: &mut Bits,
) -> Result<Batch, AllocError>
    requires columns { All (λ row. length row ≡ simulator.now.flat.inputs) rows.now }
    requires latches { length state.old ≡ latch_count simulator.now.flat.cells }
    requires nets { length values.old ≡ simulator.now.flat.inputs + length simulator.now.flat.cells }
    ensures outputs { IfOk result (λ batch. batch.outputs
        ≡ outputs_of simulator.now.flat state.old rows.now) }
    ensures states { IfOk result (λ batch. batch.states
        ≡ states_of simulator.now.flat state.old rows.now) }
    ensures state { IfOk result (λ _. state.new ≡ state_after simulator.now.flat state.old rows.now) }
    ensures latches { length state.new ≡ latch_count simulator.now.flat.cells }
    ensures nets { length values.new ≡ length values.old }
{
    let outputs = simulator.flat().outputs().len();
    let mut batch = Batch {
        outputs: Rows::blank(alloc, rows.len(), outputs)?,
        states: Rows::blank(alloc, rows.len(), state.len())?,
    };
    record_clocks(simulator, rows, state, values, &mut batch);
    Ok(batch)
}

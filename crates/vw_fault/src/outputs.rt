//! The outputs where nothing is stuck.
ghost use Rattle.std.specs.Prelude.{◌≡◌, ◌<◌, false, length, map, slice_index_or, IfOk};
ghost use Rattle.std.specs.List.{All};
ghost use Rattle.vw_net.specs.Cells.{latch_count};
ghost use Rattle.vw_net.specs.History.{outputs_of};
ghost use Rattle.vw_fault.specs.Steps.Lanes.{lane_bits};

use crate::clock::clock;
use crate::group::state_words;
use crate::stuck::Stuck;
use crate::words::Words;
use std::alloc::{AllocError, Global};
use vw_net::{Bits, Ordered, Rows, bit_of};

/// The outputs of each clock. It takes a byte for each of them, and 8 a row.
pub fn plain_outputs(
    alloc: Global,
    ordered: &Ordered,
    start: &Bits,
    rows: &Rows,
) -> Result<Rows, AllocError>
    requires latches { length start.now ≡ latch_count ordered.now.flat.cells }
    requires columns { All (λ row. length row ≡ ordered.now.flat.inputs) rows.now }
    ensures { IfOk result (λ clocks. clocks ≡ outputs_of ordered.now.flat start.now rows.now) }
{
    let flat = ordered.flat();
    let nets = flat.inputs() as usize + flat.cells().len();
    let stuck = Stuck::none(alloc, nets)?;
    let mut state = state_words(alloc, start)?;
    let mut words = Words::filled(alloc, 0, nets)?;
    let mut bits = vec![in alloc; false; flat.outputs().len()]?;
    let mut clocks = Rows::new(alloc);
    for number in 0..rows.len() {
        clock(ordered, &stuck, rows.row(number), &mut state, &mut words);
        first_bits(flat.outputs(), &words, &mut bits);
        clocks.push(&bits)?;
    }
    Ok(clocks)
}

/// Writes the bits of these nets in lane 0 over a list.
fn first_bits(nets: &[u32], words: &Words, bits: &mut [bool])
    requires within { All (λ net. net < length words.now) nets.now }
    requires size { length bits.old ≡ length nets.now }
    ensures { bits.new
        ≡ map (λ net. slice_index_or (lane_bits 0 words.now) net false) nets.now }
{
    for (place, net) in nets.iter().enumerate() {
        bits[place] = bit_of(words.get(*net as usize), 0);
    }
}

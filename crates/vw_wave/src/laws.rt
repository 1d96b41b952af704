//! A law of waves of runs, as the contract of a function that does nothing.
ghost use Rattle.std.specs.Prelude.{◌≡◌, ◌≤◌, ◌+◌, ◌^◌, ℕ, Bool, List, length};
ghost use Rattle.vw_net.specs.declared.flat.Flat.{Flat};
ghost use Rattle.vw_net.specs.Cells.{latch_count, start_values};
ghost use Rattle.vw_net.specs.History.{flat_history};
ghost use Rattle.vw_vcd.specs.Replayed.{ReplaysAs, ReplaysFrom};
ghost use Rattle.vw_wave.specs.FlatWave.{flat_wave, signal_rows, wave_from};

use vw_vcd::waves_replay;

/// The wave of a netlist is replayed as what the netlist does: at each time it has the outputs and the latch values of that
/// clock, its last time is the number of clocks, and each value behind the first block is a change. So it is from any clock
/// and state on, and before that clock no signal has a value.
pub fn waves_of_runs_replay()
    ensures from_the_start { (names : List (List ℕ)) (unknown : Bool) (flat : Flat) (rows : List (List Bool))
        → length names ≡ length flat.outputs + latch_count flat.cells → length rows ≤ 2 ^ 32
        → ReplaysAs (flat_wave names unknown flat rows) (length names)
        (signal_rows (flat_history flat (start_values unknown flat.cells) rows)) }
    ensures from_a_state { (names : List (List ℕ)) (first : ℕ) (state : List Bool) (flat : Flat) (rows : List (List Bool))
        → length names ≡ length flat.outputs + latch_count flat.cells → length state ≡ latch_count flat.cells
        → first + length rows ≤ 2 ^ 32
        → ReplaysFrom first (wave_from names first state flat rows) (length names)
        (signal_rows (flat_history flat state rows)) }
{
    waves_replay();
}

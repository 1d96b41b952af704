//! Laws of the definitions, as contracts of functions that do nothing.
ghost use Rattle.std.specs.Prelude.{◌≡◌, ◌≤◌, ◌+◌, ◌++◌, ◌^◌, ℕ, Bool, List, drop, length};
ghost use Rattle.vw_net.specs.declared.flat.Flat.{Flat};
ghost use Rattle.vw_net.specs.Cells.{latch_count, start_values};
ghost use Rattle.vw_net.specs.History.{flat_history, state_after};
ghost use Rattle.vw_rows.specs.declared.limits.TheConstants.{MOST_CLOCKS};
ghost use Rattle.vw_trace.specs.FlatTrace.{flat_trace, trace_from};
ghost use Rattle.vw_vcd.specs.Replayed.{ReplaysFrom};
ghost use Rattle.vw_wave.specs.FlatWave.{signal_rows};
ghost use Rattle.vw_resume.specs.declared.fault.StateFault.{StateFault};
ghost use Rattle.vw_resume.specs.declared.limits.TheConstants.{LONGEST_STATE};
ghost use Rattle.vw_resume.specs.declared.state.State.{State};
ghost use Rattle.vw_resume.specs.Joined.{IsJoined};
ghost use Rattle.vw_resume.specs.Resumed.{replayed_trace, replayed_wave, resumed_trace};
ghost use Rattle.vw_resume.specs.Saved.{saved_text};
ghost use Rattle.vw_resume.specs.States.{IsBadState, Spells};

use vw_net::histories_join;
use vw_wave::waves_of_runs_replay;

/// A text spells one state at most.
pub fn states_spell_once()
    ensures { (text : List ℕ) (one other : State) → Spells text one → Spells text other → one ≡ other }
{}

/// A text that spells a state isn't long.
pub fn spelled_short()
    ensures { (text : List ℕ) (state : State) → Spells text state → length text ≤ LONGEST_STATE }
{}

/// A text has one fault at most, and a text that spells a state with the wanted number of latches has none.
pub fn state_faults_are_single()
    ensures single { (text : List ℕ) (wanted : ℕ) (one other : StateFault) → IsBadState wanted text one
        → IsBadState wanted text other → one ≡ other }
    ensures faultless { (text : List ℕ) (wanted : ℕ) (state : State) (fault : StateFault)
        → Spells text state → length state.latches ≡ wanted → ¬ (IsBadState wanted text fault) }
{}

/// What is saved after some rows spells the state after them: their number, and the latch values.
pub fn saved_texts_spell_states()
    ensures { (unknown : Bool) (flat : Flat) (rows : List (List Bool)) → length rows ≤ MOST_CLOCKS
        → Spells (saved_text unknown flat rows) (record {
          clock = length rows;
          latches = state_after flat (start_values unknown flat.cells) rows;
        }) }
{}

/// The trace over some rows and then more is the trace over the first without its last line, followed by the trace that goes
/// on from the state after them without its first line. So it is from any state on, and from the start values, and with any
/// number of probes.
pub fn traces_join()
    ensures from_a_state { (flat : Flat) (clock : ℕ) (latches : List Bool) (rows more : List (List Bool))
        → IsJoined (resumed_trace flat clock latches rows)
        (resumed_trace flat (clock + length rows) (state_after flat latches rows) more)
        (resumed_trace flat clock latches (rows ++ more)) }
    ensures from_the_start { (unknown : Bool) (flat : Flat) (rows more : List (List Bool))
        → IsJoined (flat_trace 0 unknown flat rows)
        (resumed_trace flat (length rows) (state_after flat (start_values unknown flat.cells) rows) more)
        (flat_trace 0 unknown flat (rows ++ more)) }
    ensures with_probes { (probes : ℕ) (flat : Flat) (clock : ℕ) (latches : List Bool) (rows more : List (List Bool))
        → IsJoined (trace_from probes clock latches flat rows)
        (trace_from probes (clock + length rows) (state_after flat latches rows) flat more)
        (trace_from probes clock latches flat (rows ++ more)) }
    ensures with_probes_from_the_start { (probes : ℕ) (unknown : Bool) (flat : Flat) (rows more : List (List Bool))
        → IsJoined (flat_trace probes unknown flat rows)
        (trace_from probes (length rows) (state_after flat (start_values unknown flat.cells) rows) flat more)
        (flat_trace probes unknown flat (rows ++ more)) }
{
    histories_join();
}

/// The trace over the first rows, without its last line, and behind it what is replayed over all rows from the state after the
/// first on, without its first line, is the trace over all.
pub fn replays_join()
    ensures { (probes : ℕ) (unknown : Bool) (flat : Flat) (rows more : List (List Bool))
        → IsJoined (flat_trace probes unknown flat rows)
        (replayed_trace probes flat (length rows) (state_after flat (start_values unknown flat.cells) rows) (rows ++ more))
        (flat_trace probes unknown flat (rows ++ more)) }
{
    traces_join();
}

/// The wave over all rows from the state after the first of them on begins at the clock behind these, and is replayed as what
/// the signals of the whole run have from that clock on.
pub fn waves_of_replays_replay()
    ensures { (names : List (List ℕ)) (unknown : Bool) (flat : Flat) (rows more : List (List Bool))
        → length names ≡ length flat.outputs + latch_count flat.cells → length (rows ++ more) ≤ 2 ^ 32
        → let start = start_values unknown flat.cells in
        ReplaysFrom (length rows) (replayed_wave names flat (length rows) (state_after flat start rows) (rows ++ more))
        (length names) (drop (length rows) (signal_rows (flat_history flat start (rows ++ more)))) }
{
    histories_join();
    waves_of_runs_replay();
}

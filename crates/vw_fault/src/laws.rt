//! Laws of the definitions, as contracts of functions that do nothing.
ghost use Rattle.std.specs.Prelude.{◌≡◌, ◌+◌, ◌-◌, ◌*◌, ◌++◌, ◌↔◌, ℕ, suc, Bool, true, false, List, length, slice_get};
ghost use Rattle.std.specs.Int.{sum_through};
ghost use Rattle.std.specs.List.{All};
ghost use Rattle.vw_net.specs.declared.flat.Flat.{Flat};
ghost use Rattle.vw_net.specs.FoundValue.{as_it_is};
ghost use Rattle.vw_net.specs.Gathered.{gather};
ghost use Rattle.vw_net.specs.History.{outputs_of};
ghost use Rattle.vw_net.specs.Order.{is_among, read_nets_at};
ghost use Rattle.vw_fault.specs.declared.open.Open.{Open};
ghost use Rattle.vw_fault.specs.Found.{found_outputs};
ghost use Rattle.vw_fault.specs.Reached.{IsClosedByReading};
ghost use Rattle.vw_fault.specs.Shares.{open_shared, shared_faults};
ghost use Rattle.vw_fault.specs.Stuck.{find_stuck, is_detected, net_faults, open_faults};
ghost use Rattle.vw_fault.specs.Text.{open_lines};

/// Where each net is found as it is, the outputs are those of the netlist.
pub fn nothing_is_stuck()
    ensures { (flat : Flat) (start : List Bool) (rows : List (List Bool))
        → found_outputs as_it_is flat start rows ≡ outputs_of flat start rows }
{}

/// A fault isn't detected exactly where it leaves the outputs of all clocks as they are.
pub fn open_faults_change_no_output()
    ensures { (flat : Flat) (start : List Bool) (rows : List (List Bool)) (fault : Open)
        → is_detected flat start rows fault ≡ false
        ↔ found_outputs (find_stuck fault) flat start rows ≡ outputs_of flat start rows }
{}

/// What the first rows reveal, all rows reveal.
pub fn first_rows_reveal()
    ensures { (flat : Flat) (start : List Bool) (first more : List (List Bool)) (fault : Open)
        → is_detected flat start first fault ≡ true
        → is_detected flat start (first ++ more) fault ≡ true }
{}

/// A fault of a net that reaches no output is open: of one that isn't among nets to which each output belongs and, with the
/// net of a cell, each net that this cell reads.
pub fn unreached_nets_are_open()
    ensures { (flat : Flat) (start : List Bool) (rows : List (List Bool)) (fault : Open)
        (reaches : ℕ → Bool) → IsClosedByReading flat reaches → reaches fault.net ≡ false
        → is_detected flat start rows fault ≡ false }
{}

/// So is a fault of a net that no cell and no output reads.
pub fn unread_nets_are_open()
    ensures { (flat : Flat) (start : List Bool) (rows : List (List Bool)) (fault : Open)
        → is_among flat.outputs fault.net ≡ false
        → ((number : ℕ) → is_among (read_nets_at (slice_get flat.cells number)) fault.net ≡ false)
        → is_detected flat start rows fault ≡ false }
{}

/// The shares of a grading, `last + 1` of them, one behind the other, are the grading: they have all faults, their lines of open
/// faults are those of the whole, and so are the sums of their counts, of all faults and of those that the rows reveal.
pub fn shares_join()
    ensures faults { (last : ℕ) (flat : Flat)
        → gather (λ before. shared_faults (suc before) (suc last) flat) (suc last)
        ≡ gather net_faults (flat.inputs + length flat.cells) }
    ensures lines { (last : ℕ) (names : List (List ℕ)) (flat : Flat) (start : List Bool) (rows : List (List Bool))
        → gather (λ before. open_lines names (open_shared (suc before) (suc last) flat start rows)) (suc last)
        ≡ open_lines names (open_faults flat start rows) }
    ensures counts { (last : ℕ) (flat : Flat)
        → sum_through (λ before. length (shared_faults (suc before) (suc last) flat)) last
        ≡ 2 * (flat.inputs + length flat.cells) }
    ensures detected { (last : ℕ) (flat : Flat) (start : List Bool) (rows : List (List Bool))
        → sum_through (λ before. length (shared_faults (suc before) (suc last) flat)
        - length (open_shared (suc before) (suc last) flat start rows)) last
        ≡ 2 * (flat.inputs + length flat.cells) - length (open_faults flat start rows) }
{}

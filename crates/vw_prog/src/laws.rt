//! Laws of the definitions, as contracts of functions that do nothing.
ghost use Rattle.std.specs.Prelude.{◌≡◌, ◌≤◌, ◌+◌, ℕ, List, Some, length, map, slice_get, slice_index_or, slice_set};
ghost use Rattle.std.specs.List.{filter};
ghost use Rattle.vw_plan.specs.declared.link.Link.{Link};
ghost use Rattle.vw_plan.specs.Lead.{lead};
ghost use Rattle.vw_plan.specs.PlannedBoard.{PlannedBoard};
ghost use Rattle.vw_plan.specs.Sound.{IsSound};
ghost use Rattle.vw_prog.specs.declared.action.Action.{Action};
ghost use Rattle.vw_prog.specs.declared.action.Action.TheVariants.{Send};
ghost use Rattle.vw_prog.specs.declared.shift.ShiftLoop.{ShiftLoop};
ghost use Rattle.vw_prog.specs.Loops.{AreLoops, Stand, loop_nets, place_after};
ghost use Rattle.vw_prog.specs.Due.{FindsEnds, FindsReads};
ghost use Rattle.vw_prog.specs.Timetable.{entries_at, is_sent, is_taken, passes, taken_from, timetable};

/// No lead is after the period of a sound plan.
pub fn leads_end_in_time()
    ensures { (planned : PlannedBoard) (node net : ℕ) → IsSound planned
        → lead planned node net ≤ planned.plan.period }
{}

/// Under a sound plan each action of a node finds due what it reads: a gate the nets of its inputs, a send its net, and the
/// step what it records and the inputs of the node's latches.
pub fn reads_are_due()
    ensures reads { (planned : PlannedBoard) (node : ℕ) → IsSound planned
        → FindsReads planned node }
    ensures ends { (planned : PlannedBoard) (node : ℕ) → IsSound planned
        → FindsEnds planned node }
{}

/// Under a sound plan a node sends over a link what passes over it, in order, and the node at its other end takes just that.
pub fn passes_have_two_ends()
    ensures sent { (planned : PlannedBoard) (number : ℕ) (link : Link) → IsSound planned
        → slice_get planned.board.links number ≡ Some link
        → filter (is_sent number) (entries_at link.from (timetable planned))
        ≡ passes planned number }
    ensures taken { (planned : PlannedBoard) (number : ℕ) (link : Link) → IsSound planned
        → slice_get planned.board.links number ≡ Some link
        → filter (is_taken number) (entries_at link.to (timetable planned))
        ≡ map (taken_from link) (passes planned number) }
{}

/// What a send does to the shift loops of a node. All begin at their first nets. Where each stands as the actions so far have turned
/// it, the net of a send is the one at which the loop of its pin stands; this loop is turned by one, and the others stay. When
/// all actions of a clock are made, each stands at its first net again.
pub fn loops_turn()
    ensures first { (actions : List Action) (loops : List ShiftLoop) (places : List ℕ)
        → length places ≡ length loops → ((place : ℕ) → slice_index_or places place 0 ≡ 0)
        → Stand actions loops 0 places }
    ensures net { (actions : List Action) (loops : List ShiftLoop) (made : ℕ) (places : List ℕ)
        (link pin net at : ℕ) (one : ShiftLoop) → AreLoops actions loops → Stand actions loops made places
        → slice_get actions made ≡ Some (Send link pin net) → slice_get loops at ≡ Some one
        → one.link ≡ link → one.pin ≡ pin
        → slice_get (loop_nets one) (slice_index_or places at 0) ≡ Some net }
    ensures turned { (actions : List Action) (loops : List ShiftLoop) (made : ℕ) (places : List ℕ)
        (link pin net at : ℕ) (one : ShiftLoop) → AreLoops actions loops → Stand actions loops made places
        → slice_get actions made ≡ Some (Send link pin net) → slice_get loops at ≡ Some one
        → one.link ≡ link → one.pin ≡ pin → (new : List ℕ)
        → new ≡ slice_set places at (place_after (length one.nets) (slice_index_or places at 0 + 1))
        → Stand actions loops (made + 1) new }
    ensures again { (actions : List Action) (loops : List ShiftLoop) (made : ℕ) (places : List ℕ)
        → AreLoops actions loops → Stand actions loops made places → length actions ≤ made
        → Stand actions loops 0 places }
{}

//! Laws of the definitions, as contracts of functions that do nothing.
ghost use Rattle.std.specs.Prelude.{◌≤◌, ◌+◌, ◌*◌, ℕ};
ghost use Rattle.vw_plan.specs.declared.board.Board.{Board};
ghost use Rattle.vw_delays.specs.Delays.{IsLeastDelay, least_delay};
ghost use Rattle.vw_delays.specs.Ways.{AreWays};

/// On a board, the least delay from a node to another is that of a walk, and no walk takes fewer microcycles.
pub fn least_delays_are_least()
    ensures { (board : Board) (from to : ℕ) → from ≤ board.chips → to ≤ board.chips
        → IsLeastDelay board.links from to (least_delay board from to) }
{}

/// No link shortens the way by more than its delay.
pub fn least_delays_are_ways()
    ensures { (board : Board) → AreWays board.links (least_delay board) }
{}

/// No least delay is above 16 microcycles for each chip, but for one microcycle where there is no walk.
pub fn least_delays_are_small()
    ensures { (board : Board) (from to : ℕ) → least_delay board from to ≤ 16 * board.chips + 1 }
{}

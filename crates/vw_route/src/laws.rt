//! Laws of the definitions, as contracts of functions that do nothing.
ghost use Rattle.std.specs.Prelude.{◌≡◌, ℕ, List};
ghost use Rattle.vw_plan.specs.declared.board.Board.{Board};
ghost use Rattle.vw_route.specs.Routes.{IsRouteBySteps};

use vw_board::first_steps_are_one;

/// Between two nodes there is one route by first steps at most.
pub fn routes_are_one()
    ensures { (board : Board) (from to : ℕ) (one other : List ℕ) → IsRouteBySteps board from to one
        → IsRouteBySteps board from to other → one ≡ other }
{
    first_steps_are_one()
}

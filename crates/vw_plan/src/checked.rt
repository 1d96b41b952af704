ghost use Rattle.std.specs.Prelude.{◌≡◌};
ghost use Rattle.vw_plan.specs.Sound.{IsSound};

use crate::board::Board;
use crate::plan::Plan;
use vw_net::Ordered;

/// A design, a board, and a plan for them that is sound.
pub struct Checked {
    pub ordered: Ordered,
    pub board: Board,
    pub plan: Plan,
    ghost sound: { IsSound (record { ordered = ordered; board = board; plan = plan }) },
}

impl Drop for Checked {
    fn drop(self) {
        let Checked {
            ordered: _,
            board: _,
            plan: _,
        } = self;
    }
}

impl Checked {
    /// The design, the board and the plan. It takes no memory.
    pub fn make(ordered: Ordered, board: Board, plan: Plan) -> Self
        requires { IsSound (record { ordered = ordered; board = board; plan = plan }) }
        ensures ordered { result.ordered ≡ ordered }
        ensures board { result.board ≡ board }
        ensures plan { result.plan ≡ plan }
    {
        Checked {
            ordered,
            board,
            plan,
        }
    }

    /// The design.
    pub fn ordered(&self) -> &Ordered
        ensures { result.now ≡ self.now.ordered }
    {
        &self.ordered
    }

    /// The board.
    pub fn board(&self) -> &Board
        ensures { result.now ≡ self.now.board }
    {
        &self.board
    }

    /// The plan.
    pub fn plan(&self) -> &Plan
        ensures { result.now ≡ self.now.plan }
    {
        &self.plan
    }
}

ghost use Rattle.std.specs.Prelude.{◌≡◌};

use crate::fault::PlanFault;
use vw_net::Ordered;
use vw_plan::{Board, Plan};

/// A plan that wasn't accepted, with the design and the board that it was for.
#[derive(Drop)]
pub struct CheckRefused {
    pub fault: PlanFault,
    pub ordered: Ordered,
    pub board: Board,
    pub plan: Plan,
}

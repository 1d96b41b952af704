//! Which of two plans is better.
ghost use Rattle.vw_plan.specs.Good.{IsGood};
ghost use Rattle.vw_plan.specs.PlannedBoard.{planned_board};

use vw_net::Ordered;
use vw_plan::{Board, Plan};

/// The most wires that a further plan may have: three more for each hundred of the first one.
pub fn most_wires(first: &Plan) -> u64 {
    let wires = first.wires().len() as u64;
    wires.saturating_add(wires.saturating_mul(3) / 100)
}

/// Whether a plan has more than so many wires.
pub fn has_many_wires(plan: &Plan, most: u64) -> bool {
    plan.wires().len() as u64 > most
}

/// Whether a plan is better than the best one so far: it hasn't more wires than it may, and has a shorter period, or the same
/// one with fewer wires.
fn is_better(next: &Plan, best: &Plan, most: u64) -> bool {
    if has_many_wires(next, most) {
        return false;
    }
    if next.period() == best.period() {
        return next.wires().len() < best.wires().len();
    }
    next.period() < best.period()
}

/// The better one of two good plans, of which one is the best so far. Its period is no longer than that one's.
pub fn better(ordered: &Ordered, board: &Board, best: Plan, next: Plan, most: u64) -> Plan
    requires best { IsGood (planned_board ordered.now board.now best) }
    requires next { IsGood (planned_board ordered.now board.now next) }
    ensures { IsGood (planned_board ordered.now board.now result) }
{
    let _ = ordered;
    let _ = board;
    if is_better(&next, &best, most) {
        return next;
    }
    best
}

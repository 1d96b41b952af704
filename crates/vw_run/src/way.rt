//! How a plan is made for chips.
ghost use Rattle.vw_run.specs.GivenChips.{IsPlanFor};

use crate::routes::Routing;
use vw_net::Ordered;
use vw_pipe::Priority;
use vw_plan::{Board, Plan};

/// Which walks its wires take, and what is sent first.
#[derive(Clone, Copy)]
pub struct Way {
    pub routing: Routing,
    pub priority: Priority,
}

/// The first way.
pub const FIRST_WAY: Way = Way {
    routing: Routing::FirstSteps,
    priority: Priority::Nets,
};

/// The other ways. On equal periods the earlier way counts.
pub const OTHER_WAYS: [Way; 3] = [
    Way {
        routing: Routing::FirstSteps,
        priority: Priority::Routes,
    },
    Way {
        routing: Routing::Spread,
        priority: Priority::Nets,
    },
    Way {
        routing: Routing::Spread,
        priority: Priority::Routes,
    },
];

/// The way of plans that are only compared with each other, which is the best one for most designs.
pub const ROUND_WAY: Way = Way {
    routing: Routing::Spread,
    priority: Priority::Routes,
};

/// The one with the shorter period of two plans for the same chips; the first where they are equal.
pub fn shorter(ordered: &Ordered, board: &Board, chip_of: &[u32], one: Plan, other: Plan) -> Plan
    requires one { IsPlanFor ordered.now board.now chip_of.now one }
    requires other { IsPlanFor ordered.now board.now chip_of.now other }
    ensures { IsPlanFor ordered.now board.now chip_of.now result }
{
    let _ = ordered;
    let _ = board;
    let _ = chip_of;
    if other.period() < one.period() {
        return other;
    }
    one
}

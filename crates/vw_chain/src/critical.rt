//! The chain that sets the period of a plan.
ghost use Rattle.std.specs.Prelude.{ℕ, Some, IfOk};
ghost use Rattle.vw_plan.specs.PlannedBoard.{home};
ghost use Rattle.vw_chain.specs.Chains.{IsChain, IsCritical, IsWaitedFor};
ghost use Rattle.vw_chain.specs.Steps.{EndsSo, LeadsOn};
ghost use Rattle.vw_chain.specs.Timing.{IsNet, planned_of};

use crate::chain::{Chain, Critical, End, Step};
use crate::due::last_due;
use crate::timed::Timed;
use std::alloc::{AllocError, Global};
use vw_net::Sequence;

/// Goes back from what an end waits for to that net at its own node.
fn before_end(timed: &Timed, end: End, steps: &mut Vec<Step>) -> Result<u32, AllocError>
    requires { (last : ℕ) × EndsSo (planned_of timed.now) last (Some end) }
    ensures net { IfOk result (IsNet timed.now) }
    ensures way { IfOk result (λ first. (net node last : ℕ) → IsWaitedFor (planned_of timed.now) end net node last
        → LeadsOn (planned_of timed.now) steps.old.items net node
        steps.new.items first (home (planned_of timed.now) first)) }
{
    let wired = timed.wired;
    match end {
        End::Wire { number } => {
            steps.push(Step::Wire { number })?;
            Ok(wired.plan.wires()[number].net())
        }
        End::Latch { number, reads } => {
            timed.back_home(wired.plan.chip_of()[number], reads, steps)?;
            Ok(reads)
        }
    }
}

/// A chain to an end.
fn chain_to(alloc: Global, timed: &Timed, last: u64, end: End) -> Result<Chain, AllocError>
    requires { EndsSo (planned_of timed.now) last (Some end) }
    ensures { IfOk result (IsChain (planned_of timed.now) last) }
{
    let mut steps = Vec::new(alloc);
    let net = before_end(timed, end, &mut steps)?;
    let first = timed.back_to_first(net, &mut steps)?;
    steps.reverse();
    Ok(Chain {
        first,
        steps: Sequence::of(steps),
        end,
    })
}

/// The microcycle that the period of a plan has to reach, and a chain of gates and wires that leads there: in each step of it what
/// comes next was waiting for what came before. It takes memory for the chain alone, and goes over the gates once.
pub fn critical_chain(alloc: Global, timed: &Timed) -> Result<Critical, AllocError>
    ensures { IfOk result (IsCritical (planned_of timed.now)) }
{
    let due = last_due(timed);
    match due.end {
        None => Ok(Critical {
            last: due.last,
            chain: None,
        }),
        Some(end) => Ok(Critical {
            last: due.last,
            chain: Some(chain_to(alloc, timed, due.last, end)?),
        }),
    }
}

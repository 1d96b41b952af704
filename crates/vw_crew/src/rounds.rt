//! Rounds of bursts, in which all groups of a crew work at the same time, and what the calling thread does between them.
ghost use Rattle.std.specs.Prelude.{◌≡◌, ℕ, slice_get, Some};
ghost use Rattle.vw_node.specs.declared.node.Node.{Node};
ghost use Rattle.vw_crew.specs.Groups.{AllAtWork, AllStay, SeenGroup};

use crate::bursts::{burst_all, pass};
use crate::group::Group;
use crate::groups::are_done;
use crate::pace::Pace;
use crate::patience::Round;
use std::marker::Sync;
use std::sync::Wait;
use std::thread::Threads;
use vw_outside::BurstGate;
use vw_prog::{PutEnd, TakeEnd};

/// One burst of each group, by as many threads as the pace of the run says, which learns what came of it.
fn round<R: Threads + Sync, G: BurstGate, T: PutEnd + Send, U: TakeEnd + Send>(
    rt: &R,
    gate: &G,
    pace: &mut Pace,
    groups: &mut [Group<'_, T, U>],
    clocks: u64,
)
    requires { AllAtWork groups.old }
    ensures work { AllAtWork groups.new }
    ensures stay { AllStay groups.old groups.new }
{
    let each = pace.groups_of_each(groups.len());
    let round = Round::new(groups.len().div_ceil(each) as u64);
    burst_all(rt, gate, &round, each, clocks, groups);
    pace.count_round(groups.len(), &round);
}

/// Rounds until all nodes have finished so many clocks, and passes in this thread between them where rounds aren't worth their
/// threads. It may go on for ever.
pub fn finish<R: Threads + Wait + Sync, G: BurstGate, T: PutEnd + Send, U: TakeEnd + Send>(
    rt: &R,
    gate: &G,
    pace: &mut Pace,
    groups: &mut [Group<'_, T, U>],
    clocks: u64,
)
    requires { AllAtWork groups.old }
    ensures work { AllAtWork groups.new }
    ensures stay { AllStay groups.old groups.new }
    ensures done { (number place : ℕ) (group : SeenGroup) (node : Node)
        → slice_get groups.new number ≡ Some group → slice_get group.nodes place ≡ Some node
        → node.clock ≡ clocks }
{
    for _ in rt.forever() {
        if are_done(groups, clocks) {
            break;
        }
        if pace.is_alone() {
            pace.count_alone(pass(groups));
        } else {
            round(rt, gate, pace, groups, clocks);
        }
    }
}

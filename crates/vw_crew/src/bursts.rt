//! Bursts of groups: several of them in one thread, and all of them in several threads.
ghost use Rattle.std.specs.Prelude.{◌<◌};
ghost use Rattle.vw_crew.specs.Groups.{AllAtWork, AllStay};

use crate::costs::REFUSALS;
use crate::group::Group;
use crate::groups::{are_done, turn};
use crate::parts::for_each_part;
use crate::patience::{Patience, Round};
use std::marker::Sync;
use std::thread::Threads;
use vw_outside::BurstGate;
use vw_prog::{PutEnd, TakeEnd};

/// Each node goes on until it is refused or done, one after the other in this thread. Says how many actions they made.
pub fn pass<T: PutEnd, U: TakeEnd>(groups: &mut [Group<'_, T, U>]) -> u64
    requires { AllAtWork groups.old }
    ensures work { AllAtWork groups.new }
    ensures stay { AllStay groups.old groups.new }
{
    let mut made = 0u64;
    for number in 0..groups.len() {
        made = made.wrapping_add(turn(groups, number));
    }
    made
}

/// Each group tells the gate its number.
fn enter_all<G: BurstGate, T: PutEnd, U: TakeEnd>(gate: &G, groups: &[Group<'_, T, U>]) {
    for group in groups {
        gate.enter(group.number());
    }
}

/// A burst of each of some groups in this thread: passes over them until each node is done or was refused so often, with waits
/// in between as long as no other thread of the round has ended its bursts. It takes no memory.
fn burst<G: BurstGate, T: PutEnd, U: TakeEnd>(
    gate: &G,
    round: &Round,
    clocks: u64,
    groups: &mut [Group<'_, T, U>],
)
    requires { AllAtWork groups.old }
    ensures work { AllAtWork groups.new }
    ensures stay { AllStay groups.old groups.new }
{
    enter_all(gate, groups);
    let mut patience = Patience::new(round);
    for _ in 0..REFUSALS {
        patience.wait();
        patience.count(pass(groups));
        if are_done(groups, clocks) {
            break;
        }
    }
    patience.end();
}

/// A burst of each group, all at the same time, where so many groups have a thread of their own. Where no thread can be started the
/// calling thread makes all bursts itself.
pub fn burst_all<R: Threads + Sync, G: BurstGate, T: PutEnd + Send, U: TakeEnd + Send>(
    rt: &R,
    gate: &G,
    round: &Round,
    each: usize,
    clocks: u64,
    groups: &mut [Group<'_, T, U>],
)
    requires each { 0 < each }
    requires work { AllAtWork groups.old }
    ensures work { AllAtWork groups.new }
    ensures stay { AllStay groups.old groups.new }
{
    for_each_part(
        rt,
        &|part: &mut [Group<'_, T, U>]|
            requires { AllAtWork part.now }
            ensures { AllAtWork part.exit.now × AllStay part.entry.now part.exit.now }
        { burst(gate, round, clocks, part) },
        each,
        groups,
    );
}

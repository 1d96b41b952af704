//! What is done for a schedule.
ghost use Rattle.std.specs.Prelude.{◌≡◌, ◌<◌, ◌+◌, ◌^◌, ◌++◌, length, slice_index, false, true, IfOk, OnOk};
ghost use Rattle.std.specs.List.Sorted.{IsPermutation};
ghost use Rattle.vw_pipe.specs.Steps.Tasks.{all_tasks, tasks_from, AreRising};

use crate::turns::{Turns, turn_in};
use std::alloc::{AllocError, Global};
use vw_net::Ordered;

/// One thing that is done. Tasks are ordered by their turns; of one turn, the leads come before the hops.
#[derive(Clone, Copy, PartialEq, Eq, PartialOrd, Ord)]
pub struct Task {
    /// The turn of the gate's net, or of the route.
    pub turn: u64,
    /// Whether the hops of a route are sent; else the lead of a gate is worked out.
    pub sends: bool,
    /// The place of the gate in the order, or the number of the route.
    pub place: u32,
}

/// Lists the task of each gate.
fn list_leads(ordered: &Ordered, turns: &[u64], tasks: &mut Vec<Task>) -> Result<(), AllocError>
    ensures { OnOk result (tasks.new.items ≡ tasks.old.items
        ++ tasks_from (λ number. slice_index turns.now
        (ordered.now.flat.inputs + number)) false 0 ordered.now.order) }
{
    let inputs = ordered.flat().inputs();
    for (place, number) in ordered.order().iter().enumerate() {
        tasks.push(Task {
            turn: turn_in(turns, inputs + *number),
            sends: false,
            place: place as u32,
        })?;
    }
    Ok(())
}

/// Lists the task of each route, by its turn.
fn list_sends(turns: &[u64], tasks: &mut Vec<Task>) -> Result<(), AllocError>
    requires { length turns.now < 2 ^ 32 }
    ensures { OnOk result (tasks.new.items ≡ tasks.old.items
        ++ tasks_from (λ turn. turn) true 0 turns.now) }
{
    for (number, turn) in turns.iter().enumerate() {
        tasks.push(Task {
            turn: *turn,
            sends: true,
            place: number as u32,
        })?;
    }
    Ok(())
}

/// All tasks, by their turns.
pub fn tasks_in_order(
    alloc: Global,
    ordered: &Ordered,
    turns: &Turns,
) -> Result<Vec<Task>, AllocError>
    requires { length turns.now.routes.items < 2 ^ 32 }
    ensures { IfOk result (λ tasks.
        IsPermutation (all_tasks ordered.now turns.now) tasks.items × AreRising tasks.items) }
{
    let mut tasks = Vec::with_capacity(alloc, ordered.order().len() + turns.routes.len())?;
    list_leads(ordered, &turns.nets, &mut tasks)?;
    list_sends(&turns.routes, &mut tasks)?;
    tasks.sort()?;
    Ok(tasks)
}

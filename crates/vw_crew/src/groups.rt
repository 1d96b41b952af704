//! All groups of a crew, and the node with a number in them.
ghost use Rattle.std.specs.Prelude.{◌≡◌, ◌<◌, ◌≤◌, ℕ, length, option_map, slice_get, Some, IfOk};
ghost use Rattle.std.specs.Bool.{OnFalse, OnTrue};
ghost use Rattle.vw_prog.specs.Actions.{ArePrograms};
ghost use Rattle.vw_prog.specs.Scripts.{planned_of};
ghost use Rattle.vw_node.specs.declared.node.Node.{Node};
ghost use Rattle.vw_crew.specs.Ends.{Has, MayHave, SeenOwn};
ghost use Rattle.vw_crew.specs.Groups.{AllAtWork, AllStay, Changes, IsFirstGroup, SeenGroup, group_node, own_at};

use crate::group::Group;
use std::alloc::{AllocError, Global};
use vw_node::Node;
use vw_prog::{Job, Programs, PutEnd, TakeEnd};

/// So many groups, before any action of their nodes, and without ends.
pub fn first_groups<'a, T: PutEnd, U: TakeEnd>(
    alloc: Global,
    programs: &'a Programs,
    job: &'a Job,
    count: u32,
) -> Result<Vec<Group<'a, T, U>>, AllocError>
    requires programs { ArePrograms (planned_of job.now) programs.now }
    requires few { count ≤ 64 }
    ensures count { IfOk result (λ groups. length groups.items ≡ count) }
    ensures each { IfOk result (λ groups. (number : ℕ) (group : SeenGroup)
        → slice_get groups.items number ≡ Some group → IsFirstGroup job.now count number group) }
{
    let mut groups = Vec::new(alloc);
    for number in 0..count {
        groups.push(Group::make(alloc, programs, job, number, count)?)?;
    }
    Ok(groups)
}

/// Gives a node other ends of a link, or none. Gives those that it had.
pub fn change_ends<T: PutEnd, U: TakeEnd>(
    groups: &mut [Group<'_, T, U>],
    node: u32,
    link: u32,
    put: Option<T>,
    take: Option<U>,
) -> (Option<T>, Option<U>)
    requires { (own : SeenOwn) × (own_at groups.old node ≡ Some own)
        × MayHave own link (option_map T.seen put) (option_map U.seen take) }
    ensures had { (own : SeenOwn) → own_at groups.old node ≡ Some own
        → Has own link (option_map T.seen result.0) (option_map U.seen result.1) }
    ensures changes { Changes node link (option_map T.seen put) (option_map U.seen take)
        groups.old groups.new }
{
    let count = groups.len();
    groups[node as usize % count]
        .ends_at(node as usize / count)
        .change(link, put, take)
}

/// Each node of the group with a number goes on until it is refused or done, one after the other. Says how many actions they
/// made. It takes no memory.
pub fn turn<T: PutEnd, U: TakeEnd>(groups: &mut [Group<'_, T, U>], number: usize) -> u64
    requires work { AllAtWork groups.old }
    requires number { number < length groups.old }
    ensures work { AllAtWork groups.new }
    ensures stay { AllStay groups.old groups.new }
{
    groups[number].turn()
}

/// The node with a number.
pub fn node<'s, 'a, T: PutEnd, U: TakeEnd>(groups: &'s [Group<'a, T, U>], node: u32) -> &'s Node<'a>
    requires { (there : Node) × (group_node groups.now node ≡ Some there) }
    ensures { group_node groups.now node ≡ Some result.now }
{
    let count = groups.len();
    groups[node as usize % count].node(node as usize / count)
}

/// Node 0, given up with all others.
pub fn into_host<'a, T: PutEnd, U: TakeEnd>(mut groups: Vec<Group<'a, T, U>>) -> Node<'a>
    requires { (there : Node) × (group_node groups.items 0 ≡ Some there) }
    ensures { group_node groups.entry.items 0 ≡ Some result }
{
    groups.swap_remove(0).into_first()
}

/// Whether all nodes have finished so many clocks.
pub fn are_done<T: PutEnd, U: TakeEnd>(groups: &[Group<'_, T, U>], clocks: u64) -> bool
    ensures done { OnTrue result ((number place : ℕ) (group : SeenGroup) (node : Node)
        → slice_get groups.now number ≡ Some group → slice_get group.nodes place ≡ Some node
        → node.clock ≡ clocks) }
    ensures rest { OnFalse result ((number : ℕ) × ((group : SeenGroup) × ((place : ℕ) × ((node : Node)
        × ((slice_get groups.now number ≡ Some group) × ((slice_get group.nodes place ≡ Some node)
        × (node.clock ≡ clocks → ⊥))))))) }
{
    for group in groups {
        if !group.is_done(clocks) {
            return false;
        }
    }
    true
}

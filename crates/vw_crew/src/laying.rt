//! The links of a crew are laid and lifted.
ghost use Rattle.std.specs.Prelude.{◌≡◌, ◌≤◌, ℕ, length, IfOk};
ghost use Rattle.std.specs.Option.{is_some};
ghost use Rattle.vw_crew.specs.Groups.{group_numbers};
ghost use Rattle.vw_crew.specs.Laying.{CanLift, HasSameNodes, IsBare, IsCrew, carried_on};

use crate::group::Group;
use crate::groups::change_ends;
use std::alloc::{AllocError, Global};
use vw_prog::{Fabric, Job};

/// Lifts the first links. It takes no memory.
pub fn lift_all<F: Fabric>(
    fabric: &mut F,
    job: &Job,
    groups: &mut [Group<'_, F::Tx, F::Rx>],
    count: usize,
)
    requires count { count ≤ length job.now.checked.board.links }
    requires hung { (moved : ℕ → ℕ)
        × CanLift job.now (F.carried fabric.old) count moved groups.old }
    ensures carried { (moved : ℕ → ℕ)
        → CanLift job.now (F.carried fabric.old) count moved groups.old
        → F.carried fabric.new ≡ carried_on job.now count moved (F.carried fabric.old) }
    ensures nodes { HasSameNodes groups.old groups.new }
    ensures numbers { group_numbers groups.new ≡ group_numbers groups.old }
{
    let links = job.checked().board().links();
    for number in 0..count {
        let link = &links[number];
        let place = number as u32;
        let (put, _) = change_ends(groups, link.from(), place, None, None);
        let (_, take) = change_ends(groups, link.to(), place, None, None);
        fabric.lift(place, put.unwrap(), take.unwrap());
    }
}

/// Lays each link, and gives its ends to the nodes at which it begins and ends. On a refusal those that were laid are lifted.
pub fn lay_all<F: Fabric>(
    alloc: Global,
    fabric: &mut F,
    job: &Job,
    groups: &mut [Group<'_, F::Tx, F::Rx>],
) -> Result<(), AllocError>
    requires { IsBare job.now groups.old }
    ensures same { F.carried fabric.new ≡ F.carried fabric.old }
    ensures numbers { group_numbers groups.new ≡ group_numbers groups.old }
    ensures ready { IfOk result (λ _. IsCrew job.now (is_some (F.carried fabric.old)) groups.new) }
{
    let links = job.checked().board().links();
    for number in 0..links.len() {
        let link = &links[number];
        let place = number as u32;
        match fabric.lay(alloc, job, place) {
            Ok((put, take)) => {
                change_ends(groups, link.from(), place, Some(put), None);
                change_ends(groups, link.to(), place, None, Some(take));
            }
            Err(refused) => {
                lift_all(fabric, job, groups, number);
                return Err(refused);
            }
        }
    }
    Ok(())
}

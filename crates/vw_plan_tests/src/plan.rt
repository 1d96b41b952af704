use crate::plans::is_plan;
use crate::same::{are_numbers, are_wide_numbers};
use std::alloc::{AllocError, Global};
use std::test::Fail;
use vw_net::Sequence;
use vw_plan::{Hop, Link, Need, Plan, Route, Wire};

#[test]
fn links_hops_and_needs_have_their_parts(rt: HostRuntime) {
    let link = Link::make(1, 2, 64, 16);
    are_numbers(
        &rt,
        &[link.from(), link.to(), link.width(), link.delay()],
        &[1, 2, 64, 16],
    );
    let hop = Hop::make(3, 4, 5, 6);
    are_numbers(&rt, &[hop.from(), hop.to(), hop.pin()], &[3, 4, 5]);
    are_wide_numbers(&rt, &[hop.at()], &[6]);
    let need = Need::make(7, 8);
    are_numbers(&rt, &[need.net(), need.to()], &[7, 8]);
}

/// A plan of two cells and one wire of one hop.
fn one_wire(alloc: Global) -> Result<Plan, AllocError> {
    let mut hops = Vec::new(alloc);
    hops.push(Hop::make(0, 1, 0, 4_611_686_018_427_387_904))?;
    let mut wires = Vec::new(alloc);
    wires.push(Wire::make(9, 1, Sequence::of(hops)))?;
    let chips = [1, 2].to_vec(alloc)?;
    Ok(Plan::make(
        Sequence::of(chips),
        Sequence::of(wires),
        4_611_686_018_427_387_904,
    ))
}

/// The net and the node of that wire, its one hop, and the period.
const ONE_WIRE: &[u64] = &[
    9,
    1,
    0,
    1,
    0,
    4_611_686_018_427_387_904,
    4_611_686_018_427_387_904,
];

#[test]
fn a_plan_has_its_wires(rt: HostRuntime) -> Result<(), Fail> {
    let plan = one_wire(rt.alloc())?;
    is_plan(&rt, rt.alloc(), &plan, &[1, 2], 1, ONE_WIRE)?;
    Ok(())
}

#[test]
fn a_route_has_its_nodes(rt: HostRuntime) -> Result<(), Fail> {
    let route = Route::make(5, 2, Sequence::of([0, 1, 2].to_vec(rt.alloc())?));
    are_numbers(&rt, &[route.net(), route.to()], &[5, 2]);
    are_numbers(&rt, route.nodes(), &[0, 1, 2]);
    Ok(())
}

//! Plans of texts, and the numbers of plans, for tests.
use crate::same::{are_numbers, are_wide_numbers, is_count};
use std::alloc::{AllocError, Global};
use std::process::Abort;
use std::test::Fail;
use vw_plan::{Hop, Plan, Wire};
use vw_plantext::read;

/// The plan of a text.
pub fn plan_of(alloc: Global, text: &[u8]) -> Result<Plan, Fail> {
    match read(alloc, text) {
        Ok(plan) => Ok(plan),
        Err(_) => Err("no plan".into()),
    }
}

/// The net and the node that a wire is for, and the ends of one of its hops, its pin and its microcycle.
fn hop_numbers(wire: &Wire, hop: &Hop) -> [u64; 6] {
    [
        u64::from(wire.net()),
        u64::from(wire.to()),
        u64::from(hop.from()),
        u64::from(hop.to()),
        u64::from(hop.pin()),
        hop.at(),
    ]
}

/// Of each hop of a plan, the net and the node that its wire is for, its ends, its pin and its microcycle; at the end, the
/// period.
pub fn numbers_of(alloc: Global, plan: &Plan) -> Result<Vec<u64>, AllocError> {
    let mut numbers = Vec::new(alloc);
    for wire in plan.wires() {
        for hop in wire.hops() {
            numbers.extend_from_slice(&hop_numbers(wire, hop))?;
        }
    }
    numbers.push(plan.period())?;
    Ok(numbers)
}

/// Asserts which chips the cells of a plan are on, how many wires it has, and the numbers of its hops and its period.
pub fn is_plan(
    rt: &impl Abort,
    alloc: Global,
    plan: &Plan,
    chips: &[u32],
    wires: usize,
    numbers: &[u64],
) -> Result<(), AllocError> {
    are_numbers(rt, plan.chip_of(), chips);
    is_count(rt, plan.wires().len(), wires);
    let found = numbers_of(alloc, plan)?;
    are_wide_numbers(rt, &found, numbers);
    Ok(())
}

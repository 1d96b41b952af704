use crate::boards::{chips_in_turns, may_be_chips};
use crate::netlists::{Netlist, Part, made, of_latches};
use crate::same::are_numbers;
use std::alloc::{AllocError, Global};
use std::process::Abort;
use std::test::Fail;
use vw_net::Ordered;
use vw_plan::Need;
use vw_wires::{depths, needed};

/// The net and the node of each pair, and then these depths.
fn listed(alloc: Global, needs: &[Need], depths: &[u32]) -> Result<Vec<u32>, AllocError> {
    let mut numbers = Vec::new(alloc);
    for need in needs {
        numbers.push(need.net())?;
        numbers.push(need.to())?;
    }
    numbers.extend_from_slice(depths)?;
    Ok(numbers)
}

/// What is answered of a placement: the net and the node of each needed pair, and then the depth of each.
fn answer(alloc: Global, ordered: &Ordered, chips: &[u32]) -> Result<Vec<u32>, Fail> {
    if chips.len() != ordered.flat().cells().len() || !may_be_chips(chips) {
        return Err("no placement".into());
    }
    let needs = needed(alloc, ordered, chips)?;
    let depths = depths(alloc, ordered, chips, needs.as_slice())?;
    Ok(listed(alloc, needs.as_slice(), depths.as_slice())?)
}

/// Asserts what is answered of a placement.
fn is_answered(
    rt: &impl Abort,
    alloc: Global,
    ordered: Ordered,
    chips: &[u32],
    numbers: &[u32],
) -> Result<(), Fail> {
    let found = answer(alloc, &ordered, chips)?;
    are_numbers(rt, &found, numbers);
    Ok(())
}

/// A netlist, a placement, and the net and the node of each needed pair, with the depths of the pairs behind them all.
#[derive(Clone, Copy)]
struct Case<'a> {
    netlist: Netlist<'a>,
    chips: &'a [u32],
    numbers: &'a [u32],
}

/// Asserts what is answered of each case.
fn are_answered(rt: &impl Abort, alloc: Global, cases: &[Case]) -> Result<(), Fail> {
    for case in cases {
        let netlist = made(alloc, &case.netlist)?;
        is_answered(rt, alloc, netlist, case.chips, case.numbers)?;
    }
    Ok(())
}

const CASES: &[Case] = &[
    // a gate and a latch on two chips need each other
    Case {
        netlist: Netlist {
            inputs: 1,
            parts: &[Part::Gate(&[0, 2]), Part::Latch(1)],
            outputs: &[2],
        },
        chips: &[1, 2],
        numbers: &[0, 1, 1, 2, 2, 0, 2, 1, 0, 1, 0, 0],
    },
    // a way over three chips is as deep as its wires
    Case {
        netlist: Netlist {
            inputs: 1,
            parts: &[
                Part::Gate(&[0]),
                Part::Gate(&[1]),
                Part::Gate(&[2]),
                Part::Gate(&[0, 3]),
            ],
            outputs: &[4, 0],
        },
        chips: &[1, 1, 2, 1],
        numbers: &[0, 1, 2, 2, 3, 1, 4, 0, 0, 1, 2, 3],
    },
    // a pair that is read often stands once; chips may have any numbers
    Case {
        netlist: Netlist {
            inputs: 1,
            parts: &[Part::Gate(&[0, 0]), Part::Gate(&[1, 1]), Part::Latch(1)],
            outputs: &[1, 1, 0],
        },
        chips: &[7, 4_294_967_295, 4_294_967_295],
        numbers: &[0, 7, 1, 0, 1, 4_294_967_295, 0, 1, 1],
    },
];

#[test]
fn each_needed_pair_stands_once_with_its_depth(rt: HostRuntime) -> Result<(), Fail> {
    are_answered(&rt, rt.alloc(), CASES)
}

/// Net 0 with each of 32 chips, and the depths of these pairs.
const ON_EACH: &[u32] = &[
    0, 1, 0, 2, 0, 3, 0, 4, 0, 5, 0, 6, 0, 7, 0, 8, 0, 9, 0, 10, 0, 11, 0, 12, 0, 13, 0, 14, 0, 15,
    0, 16, 0, 17, 0, 18, 0, 19, 0, 20, 0, 21, 0, 22, 0, 23, 0, 24, 0, 25, 0, 26, 0, 27, 0, 28, 0,
    29, 0, 30, 0, 31, 0, 32, 0, 0, 0, 0, 0, 0, 0, 0, 0, 0, 0, 0, 0, 0, 0, 0, 0, 0, 0, 0, 0, 0, 0,
    0, 0, 0, 0, 0, 0, 0, 0, 0,
];

#[test]
fn a_net_that_every_cell_reads_has_a_pair_for_each_chip(rt: HostRuntime) -> Result<(), Fail> {
    let chips = chips_in_turns(rt.alloc())?;
    let wide = of_latches(rt.alloc(), 65536, &[])?;
    is_answered(&rt, rt.alloc(), wide, &chips, ON_EACH)
}

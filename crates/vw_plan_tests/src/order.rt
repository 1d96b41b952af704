use crate::netlists::{Part, cells_of, gate};
use crate::same::are_numbers;
use std::alloc::{AllocError, Global};
use std::process::Abort;
use std::test::Fail;
use vw_net::{Cell, Flat, Sequence};
use vw_order::{OrderFault, OrderRefused, order};

/// The order of the gates, or the loop that stands in its way.
#[derive(Drop)]
struct Listed {
    is_order: bool,
    numbers: Sequence<u32>,
}

/// What is answered of these cells.
fn answer(alloc: Global, inputs: u32, cells: Vec<Cell>) -> Result<Listed, Fail> {
    let outputs = Sequence::of(Vec::new(alloc));
    let Some(flat) = Flat::checked(inputs, Sequence::of(cells), outputs) else {
        return Err("no netlist".into());
    };
    match order(alloc, flat) {
        Ok(ordered) => Ok(Listed {
            is_order: true,
            numbers: Sequence::of(ordered.order().to_vec(alloc)?),
        }),
        Err(refused) => {
            let OrderRefused { fault, .. } = refused;
            match fault {
                OrderFault::Loop(numbers) => Ok(Listed {
                    is_order: false,
                    numbers,
                }),
                OrderFault::NoMemory => Err("no memory".into()),
            }
        }
    }
}

/// Asserts whether these cells have an order, and the order or the loop.
fn is_listed(
    rt: &impl Abort,
    alloc: Global,
    inputs: u32,
    cells: Vec<Cell>,
    is_order: bool,
    numbers: &[u32],
) -> Result<(), Fail> {
    let found = answer(alloc, inputs, cells)?;
    assert!(rt; found.is_order == is_order);
    are_numbers(rt, found.numbers.as_slice(), numbers);
    Ok(())
}

/// How many inputs, the cells, whether there is an order, and the order or the loop.
const ROWS: &[(u32, &[Part], bool, &[u32])] = &[
    (0, &[Part::Gate(&[0])], false, &[0]),
    (
        1,
        &[Part::Gate(&[0]), Part::Gate(&[3]), Part::Gate(&[0, 2])],
        false,
        &[1, 2],
    ),
    (
        0,
        &[
            Part::Gate(&[3]),
            Part::Gate(&[2]),
            Part::Gate(&[3]),
            Part::Gate(&[1]),
        ],
        false,
        &[1, 2, 3],
    ),
    // feedback through a latch is no loop
    (
        1,
        &[Part::Gate(&[0, 3]), Part::Gate(&[1]), Part::Latch(2)],
        true,
        &[0, 1],
    ),
];

/// Asserts what each row says.
fn are_listed(
    rt: &impl Abort,
    alloc: Global,
    rows: &[(u32, &[Part], bool, &[u32])],
) -> Result<(), Fail> {
    for (inputs, parts, is_order, numbers) in rows {
        let cells = cells_of(alloc, parts)?;
        is_listed(rt, alloc, *inputs, cells, *is_order, numbers)?;
    }
    Ok(())
}

#[test]
fn a_loop_is_listed_from_its_least_number(rt: HostRuntime) -> Result<(), Fail> {
    are_listed(&rt, rt.alloc(), ROWS)
}

/// Cells that begin so, and behind them so many gates, of which the first reads net 1, and each other one the net behind
/// that.
fn with_gates(alloc: Global, parts: &[Part], count: u32) -> Result<Vec<Cell>, Fail> {
    let mut cells = cells_of(alloc, parts)?;
    for number in 0..count {
        cells.push(gate(alloc, &[number + 1])?)?;
    }
    Ok(cells)
}

/// A thousand gates, each of which reads the one behind it.
fn reverse(alloc: Global) -> Result<Vec<Cell>, Fail> {
    let mut cells = with_gates(alloc, &[], 999)?;
    cells.push(gate(alloc, &[])?)?;
    Ok(cells)
}

/// These numbers, and then so many numbers from 999 down.
fn falling(alloc: Global, first: &[u32], count: u32) -> Result<Vec<u32>, AllocError> {
    let mut numbers = first.to_vec(alloc)?;
    for number in 0..count {
        numbers.push(999u32.saturating_sub(number))?;
    }
    Ok(numbers)
}

#[test]
fn a_thousand_gates_in_reverse_are_ordered(rt: HostRuntime) -> Result<(), Fail> {
    let wanted = falling(rt.alloc(), &[], 1000)?;
    let cells = reverse(rt.alloc())?;
    is_listed(&rt, rt.alloc(), 0, cells, true, &wanted)
}

#[test]
fn a_loop_of_a_thousand_gates_begins_with_its_least_number(rt: HostRuntime) -> Result<(), Fail> {
    let wanted = falling(rt.alloc(), &[1], 998)?;
    let cells = with_gates(rt.alloc(), &[Part::Gate(&[500]), Part::Gate(&[999])], 998)?;
    is_listed(&rt, rt.alloc(), 0, cells, false, &wanted)
}

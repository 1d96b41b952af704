ghost use Rattle.vw_plan_tests.specs.GraphTables.{graph_of_table};

use crate::same::are_numbers;
use std::alloc::{AllocError, Global};
use std::process::Abort;
use std::test::Fail;
use vw_order::{Digraph, Found, search};

/// A graph as a table of lines, each with a number and one that it reads. A line with a number past the last one is
/// passed over.
#[derive(Drop)]
struct GraphTable<'a> {
    count: u32,
    /// How many numbers, from 0 on, have to be reached.
    starts: u32,
    lines: &'a [(u32, u32)],
}

impl Digraph for GraphTable<'_> {
    ghost graph = { λ table. graph_of_table table.count table.starts table.lines.now };

    fn count(&self) -> u32 {
        self.count
    }

    fn starts(&self, number: u32) -> bool {
        number < self.count && number < self.starts
    }

    fn places(&self, _number: u32) -> usize {
        self.lines.len()
    }

    fn read(&self, number: u32, place: usize) -> Option<u32> {
        let line = self.lines.get(place)?;
        if line.0 == number && line.1 < self.count {
            Some(line.1)
        } else {
            None
        }
    }
}

/// The order or the circle that is found of such a table.
#[derive(Drop)]
struct Listed {
    is_order: bool,
    numbers: Vec<u32>,
}

/// What is found of numbers of which the first ones have to be reached.
fn look_at(
    alloc: Global,
    count: u32,
    starts: u32,
    lines: &[(u32, u32)],
) -> Result<Listed, AllocError> {
    let table = GraphTable {
        count,
        starts,
        lines,
    };
    match search(alloc, &table)? {
        Found::Order(numbers) => Ok(Listed {
            is_order: true,
            numbers,
        }),
        Found::Circle(numbers) => Ok(Listed {
            is_order: false,
            numbers,
        }),
    }
}

/// How many numbers there are and how many of them have to be reached, what is read, whether there is an order, and the
/// order or the circle.
type SearchCase<'a> = (u32, u32, &'a [(u32, u32)], bool, &'a [u32]);

/// Asserts what is found of each row.
fn are_found(rt: &impl Abort, alloc: Global, rows: &[SearchCase]) -> Result<(), AllocError> {
    for (count, starts, lines, is_order, numbers) in rows {
        let found = look_at(alloc, *count, *starts, lines)?;
        assert!(rt; found.is_order == *is_order);
        are_numbers(rt, &found.numbers, numbers);
    }
    Ok(())
}

const ORDERS: &[SearchCase] = &[
    (4, 4, &[(0, 2), (2, 3), (0, 3), (1, 0)], true, &[3, 2, 0, 1]),
    (0, 0, &[], true, &[]),
];

#[test]
fn what_is_read_comes_first(rt: HostRuntime) -> Result<(), Fail> {
    Ok(are_found(&rt, rt.alloc(), ORDERS)?)
}

const REACHED: &[SearchCase] = &[(4, 1, &[(0, 2), (1, 0), (3, 3)], true, &[2, 0])];

#[test]
fn what_no_one_reads_is_left_out(rt: HostRuntime) -> Result<(), Fail> {
    Ok(are_found(&rt, rt.alloc(), REACHED)?)
}

const CIRCLES: &[SearchCase] = &[
    (4, 1, &[(0, 3), (3, 2), (2, 1), (1, 3)], false, &[1, 3, 2]),
    (3, 3, &[(0, 1), (1, 1)], false, &[1]),
];

#[test]
fn a_circle_begins_with_its_least_number(rt: HostRuntime) -> Result<(), Fail> {
    Ok(are_found(&rt, rt.alloc(), CIRCLES)?)
}

ghost use Rattle.std.specs.Prelude.{◌≡◌};

use crate::boards::{TRIANGLE, distances_of};
use crate::same::are_numbers;
use std::alloc::{AllocError, Global};
use std::process::Abort;
use std::test::Fail;
use vw_board::Distances;
use vw_route::walk;

/// Asserts which nodes the walk between two nodes has.
fn is_walk(
    rt: &impl Abort,
    alloc: Global,
    distances: &Distances,
    chips: u32,
    row: (u32, u32, &[u32]),
) -> Result<(), AllocError>
    requires { distances.now.chips ≡ chips }
{
    let (from, to, wanted) = row;
    assert!(rt; from <= chips && to <= chips && from != to);
    let nodes = walk(alloc, distances, from, to)?;
    are_numbers(rt, nodes.as_slice(), wanted);
    Ok(())
}

/// Asserts which nodes walks on a board of so many chips have. Each begins and ends at two nodes.
fn are_walks(
    rt: &impl Abort,
    alloc: Global,
    text: &[u8],
    chips: u32,
    table: &[(u32, u32, &[u32])],
) -> Result<(), Fail> {
    let distances = distances_of(alloc, text, chips)?;
    for row in table {
        is_walk(rt, alloc, &distances, chips, *row)?;
    }
    Ok(())
}

/// The walks of the triangle.
const NEIGHBOURS: &[(u32, u32, &[u32])] = &[
    (0, 1, &[0, 1]),
    (0, 2, &[0, 2]),
    (1, 0, &[1, 0]),
    (1, 2, &[1, 2]),
    (2, 0, &[2, 0]),
    (2, 1, &[2, 1]),
];

#[test]
fn neighbours_are_one_link_apart(rt: HostRuntime) -> Result<(), Fail> {
    are_walks(&rt, rt.alloc(), TRIANGLE, 2, NEIGHBOURS)
}

/// A ring from the host over chips 1 to 3, a way from chip 3 to chip 1, and one from chip 1 by chip 4 to chip 3.
const RING: &[u8] =
    b"board 1\nchips 4\ncells 1\nsettle 0\npins 8\nlink 0 1 1\nlink 1 2 1\nlink 2 3 1\nlink 3 0 1\nlink 3 1 1\nlink 1 4 1\nlink 4 3 1\n";

/// Some of its walks.
const WALKS: &[(u32, u32, &[u32])] = &[
    (0, 1, &[0, 1]),
    (0, 3, &[0, 1, 2, 3]),
    (1, 0, &[1, 2, 3, 0]),
    (1, 3, &[1, 2, 3]),
    (3, 2, &[3, 1, 2]),
    (3, 4, &[3, 1, 4]),
    (2, 1, &[2, 3, 1]),
    (4, 2, &[4, 3, 1, 2]),
];

#[test]
fn walks_go_by_other_nodes(rt: HostRuntime) -> Result<(), Fail> {
    are_walks(&rt, rt.alloc(), RING, 4, WALKS)
}

use crate::boards::board;
use crate::netlists::{Netlist, Part, made, of_latches};
use crate::same::are_either;
use std::alloc::Global;
use std::process::Abort;
use std::test::Fail;
use vw_multilevel::hint;
use vw_net::Ordered;

/// Two chips with room for two cells on each.
const TWO_EACH: &[u8] =
    b"board 1\nchips 2\ncells 2\nsettle 0\npins 4\nlink 0 1 1\nlink 0 2 1\nlink 1 0 1\nlink 1 2 1\nlink 2 0 1\nlink 2 1 1\n";

/// One chip with room for a single cell.
const ONE: &[u8] = b"board 1\nchips 1\ncells 1\nsettle 0\npins 2\nlink 0 1 1\nlink 1 0 1\n";

/// Asserts that the cells of a netlist get these chips on a board, or those.
fn are_wished(
    rt: &impl Abort,
    alloc: Global,
    text: &[u8],
    ordered: &Ordered,
    these: &[u32],
    those: &[u32],
) -> Result<(), Fail> {
    let board = board(alloc, text)?;
    let wishes = hint(alloc, ordered, &board)?;
    are_either(rt, wishes.as_slice(), these, those);
    Ok(())
}

/// The first and third cell read each other, and so do the second and fourth one.
const PAIRS: Netlist = Netlist {
    inputs: 0,
    parts: &[
        Part::Latch(2),
        Part::Latch(3),
        Part::Latch(0),
        Part::Latch(1),
    ],
    outputs: &[],
};

#[test]
fn cells_that_share_nets_get_one_chip(rt: HostRuntime) -> Result<(), Fail> {
    let pairs = made(rt.alloc(), &PAIRS)?;
    are_wished(
        &rt,
        rt.alloc(),
        TWO_EACH,
        &pairs,
        &[1, 2, 1, 2],
        &[2, 1, 2, 1],
    )
}

#[test]
fn on_one_chip_every_wish_is_that_chip(rt: HostRuntime) -> Result<(), Fail> {
    // more cells than the one chip has room for
    let many = of_latches(rt.alloc(), 3, &[])?;
    are_wished(&rt, rt.alloc(), ONE, &many, &[1, 1, 1], &[1, 1, 1])
}

ghost use Rattle.std.specs.Prelude.{◌≡◌, length};
ghost use Rattle.std.specs.List.{All};
ghost use Rattle.vw_plan.specs.Chips.{IsChip};

use crate::boards::{TRIANGLE, are_chips, board, chips_in_turns};
use crate::netlists::{Netlist, Part, made, of_latches};
use crate::same::are_numbers;
use std::alloc::Global;
use std::process::Abort;
use std::test::Fail;
use vw_board::Distances;
use vw_net::{Ordered, Sequence};
use vw_place::place;
use vw_plan::Board;

/// The placement that comes of one.
fn placed(
    alloc: Global,
    ordered: &Ordered,
    board: &Board,
    chip_of: Sequence<u32>,
) -> Result<Sequence<u32>, Fail>
    requires each { length chip_of ≡ length ordered.now.flat.cells }
    requires chips { All (IsChip board.now) chip_of }
{
    let distances = Distances::of(alloc, board)?;
    match place(alloc, ordered, board, &distances, chip_of) {
        Ok(placed) => Ok(placed),
        Err(_) => Err("no memory".into()),
    }
}

/// What is answered of a placement on a board.
fn answer_on(
    alloc: Global,
    ordered: &Ordered,
    board: &Board,
    chips: &[u32],
) -> Result<Sequence<u32>, Fail> {
    if chips.len() != ordered.flat().cells().len() || !are_chips(board, chips) {
        return Err("no placement".into());
    }
    let chip_of = Sequence::of(chips.to_vec(alloc)?);
    placed(alloc, ordered, board, chip_of)
}

/// What is answered of a placement on the board of a text.
fn answer(
    alloc: Global,
    ordered: &Ordered,
    text: &[u8],
    chips: &[u32],
) -> Result<Sequence<u32>, Fail> {
    let board = board(alloc, text)?;
    answer_on(alloc, ordered, &board, chips)
}

/// Asserts what is answered of a placement.
fn is_placed(
    rt: &impl Abort,
    alloc: Global,
    ordered: Ordered,
    text: &[u8],
    chips: &[u32],
    placed: &[u32],
) -> Result<(), Fail> {
    let found = answer(alloc, &ordered, text, chips)?;
    are_numbers(rt, found.as_slice(), placed);
    Ok(())
}

/// Four chips in a row, with the host at one end.
const ROW: &[u8] =
    b"board 1\nchips 4\ncells 2\nsettle 0\npins 4\nlink 0 1 1\nlink 1 0 1\nlink 1 2 1\nlink 2 1 1\nlink 2 3 1\nlink 3 2 1\nlink 3 4 1\nlink 4 3 1\n";

/// From the host to a chip, from there to another, and from there to the host.
const RING: &[u8] =
    b"board 1\nchips 2\ncells 2\nsettle 0\npins 2\nlink 0 1 1\nlink 1 2 1\nlink 2 0 1\n";

/// A netlist, a board, a placement, and the placement that comes of it.
#[derive(Clone, Copy)]
struct Case<'a> {
    netlist: Netlist<'a>,
    board: &'a [u8],
    chips: &'a [u32],
    placed: &'a [u32],
}

/// Asserts what comes of each case.
fn are_placed(rt: &impl Abort, alloc: Global, cases: &[Case]) -> Result<(), Fail> {
    for case in cases {
        let netlist = made(alloc, &case.netlist)?;
        is_placed(rt, alloc, netlist, case.board, case.chips, case.placed)?;
    }
    Ok(())
}

/// Four gates, each of which reads the one before it.
const CHAIN: Netlist = Netlist {
    inputs: 1,
    parts: &[
        Part::Gate(&[0]),
        Part::Gate(&[1]),
        Part::Gate(&[2]),
        Part::Gate(&[3]),
    ],
    outputs: &[],
};

const CASES: &[Case] = &[
    // a chain comes to lie along a row: ways of 10, 9, 7, 6, 5 and 4 links, each by one exchange
    Case {
        netlist: CHAIN,
        board: ROW,
        chips: &[3, 1, 4, 2],
        placed: &[1, 2, 3, 4],
    },
    Case {
        netlist: CHAIN,
        board: ROW,
        chips: &[1, 2, 3, 4],
        placed: &[1, 2, 3, 4],
    },
    // each of the three pairs goes over two links before the exchange, and over one after it
    Case {
        netlist: Netlist {
            inputs: 1,
            parts: &[Part::Gate(&[0]), Part::Latch(1)],
            outputs: &[2],
        },
        board: RING,
        chips: &[2, 1],
        placed: &[1, 2],
    },
    // cells that share a chip move together
    Case {
        netlist: Netlist {
            inputs: 1,
            parts: &[Part::Gate(&[0]), Part::Gate(&[1]), Part::Latch(2)],
            outputs: &[],
        },
        board: ROW,
        chips: &[2, 2, 1],
        placed: &[1, 1, 2],
    },
    // nothing moves where all nodes are as near
    Case {
        netlist: Netlist {
            inputs: 1,
            parts: &[Part::Gate(&[0, 2]), Part::Latch(1)],
            outputs: &[2],
        },
        board: TRIANGLE,
        chips: &[2, 1],
        placed: &[2, 1],
    },
];

#[test]
fn exchanges_shorten_the_way(rt: HostRuntime) -> Result<(), Fail> {
    are_placed(&rt, rt.alloc(), CASES)
}

/// The greatest board: its 32 chips stand in a ring with the host.
const GREATEST: &[u8] =
    b"board 1\nchips 32\ncells 65536\nsettle 0\npins 4\nlink 32 0 1\nlink 0 1 1\nlink 1 2 1\nlink 2 3 1\nlink 3 4 1\nlink 4 5 1\nlink 5 6 1\nlink 6 7 1\nlink 7 8 1\nlink 8 9 1\nlink 9 10 1\nlink 10 11 1\nlink 11 12 1\nlink 12 13 1\nlink 13 14 1\nlink 14 15 1\nlink 15 16 1\nlink 16 17 1\nlink 17 18 1\nlink 18 19 1\nlink 19 20 1\nlink 20 21 1\nlink 21 22 1\nlink 22 23 1\nlink 23 24 1\nlink 24 25 1\nlink 25 26 1\nlink 26 27 1\nlink 27 28 1\nlink 28 29 1\nlink 29 30 1\nlink 30 31 1\nlink 31 32 1\n";

#[test]
fn the_greatest_design_is_placed_on_the_greatest_board(rt: HostRuntime) -> Result<(), Fail> {
    let chips = chips_in_turns(rt.alloc())?;
    let wide = of_latches(rt.alloc(), 65536, &[])?;
    // each chip needs the input, and no other net is needed, so each order is as good
    is_placed(&rt, rt.alloc(), wide, GREATEST, &chips, &chips)
}

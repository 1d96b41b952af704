use crate::boards::{TRIANGLE, board, may_be_chips};
use crate::netlists::{Netlist, Part, gate, latch, made, of_latches, ordered};
use crate::same::{are_either, are_wide_numbers, is_count};
use std::alloc::Global;
use std::process::Abort;
use std::test::Fail;
use vw_multilevel::hint;
use vw_net::{Ordered, Sequence};
use vw_part::{PartFault, partition_from};
use vw_wires::needed;

/// That with room for two cells on each chip.
const TWO_EACH: &[u8] =
    b"board 1\nchips 2\ncells 2\nsettle 0\npins 4\nlink 0 1 1\nlink 0 2 1\nlink 1 0 1\nlink 1 2 1\nlink 2 0 1\nlink 2 1 1\n";

/// Four chips in a ring with the host, with room for 80 cells on each.
const RING: &[u8] =
    b"board 1\nchips 4\ncells 80\nsettle 0\npins 2\nlink 0 1 1\nlink 1 2 1\nlink 2 3 1\nlink 3 4 1\nlink 4 0 1\n";

/// The chips that a netlist's cells are dealt to by wishes.
fn chips_from(
    alloc: Global,
    ordered: &Ordered,
    text: &[u8],
    wishes: &[u32],
) -> Result<Sequence<u32>, Fail> {
    let board = board(alloc, text)?;
    match partition_from(alloc, ordered, &board, wishes) {
        Ok(chips) => Ok(chips),
        Err(_) => Err("no partition".into()),
    }
}

/// The chips that a netlist's cells are dealt to by the wishes of the hint.
fn chips_of(alloc: Global, ordered: &Ordered, text: &[u8]) -> Result<Sequence<u32>, Fail> {
    let board = board(alloc, text)?;
    let wishes = hint(alloc, ordered, &board)?;
    chips_from(alloc, ordered, text, wishes.as_slice())
}

/// How many pairs are needed.
fn pairs(alloc: Global, ordered: &Ordered, chips: &[u32]) -> Result<usize, Fail> {
    if chips.len() != ordered.flat().cells().len() || !may_be_chips(chips) {
        return Err("no placement".into());
    }
    Ok(needed(alloc, ordered, chips)?.len())
}

/// How many pairs are needed where a netlist's cells are dealt to a board.
fn pairs_on(alloc: Global, ordered: &Ordered, text: &[u8]) -> Result<usize, Fail> {
    let chips = chips_of(alloc, ordered, text)?;
    pairs(alloc, ordered, chips.as_slice())
}

/// Asserts how many pairs are needed where a netlist's cells are dealt to a board.
fn has_pairs(
    rt: &impl Abort,
    alloc: Global,
    ordered: Ordered,
    text: &[u8],
    count: usize,
) -> Result<(), Fail> {
    is_count(rt, pairs_on(alloc, &ordered, text)?, count);
    Ok(())
}

/// How many cells are on a chip.
fn on_chip(chips: &[u32], chip: u32) -> usize {
    let mut count = 0;
    for other in chips {
        if *other == chip && count < chips.len() {
            count += 1;
        }
    }
    count
}

/// A gate that reads the input and a latch, which reads the gate and is the output.
const TOGGLE: Netlist = Netlist {
    inputs: 1,
    parts: &[Part::Gate(&[0, 2]), Part::Latch(1)],
    outputs: &[2],
};

/// Asserts that a netlist's cells are dealt to these chips, or to those, and how many pairs are needed.
fn is_either(
    rt: &impl Abort,
    alloc: Global,
    ordered: &Ordered,
    text: &[u8],
    these: &[u32],
    those: &[u32],
    count: usize,
) -> Result<(), Fail> {
    let chips = chips_of(alloc, ordered, text)?;
    are_either(rt, chips.as_slice(), these, those);
    is_count(rt, pairs(alloc, ordered, chips.as_slice())?, count);
    Ok(())
}

/// Asserts the same of the toggle.
fn toggle_is_either(
    rt: &impl Abort,
    alloc: Global,
    text: &[u8],
    these: &[u32],
    those: &[u32],
    count: usize,
) -> Result<(), Fail> {
    let toggle = made(alloc, &TOGGLE)?;
    is_either(rt, alloc, &toggle, text, these, those, count)
}

#[test]
fn two_cells_of_which_each_fills_a_chip_are_apart(rt: HostRuntime) -> Result<(), Fail> {
    toggle_is_either(&rt, rt.alloc(), TRIANGLE, &[1, 2], &[2, 1], 4)
}

#[test]
fn two_cells_that_read_each_other_are_together(rt: HostRuntime) -> Result<(), Fail> {
    toggle_is_either(&rt, rt.alloc(), TWO_EACH, &[1, 1], &[2, 2], 2)
}

/// How many cells there are, and for how many a board has room, where they are too many.
fn too_many(alloc: Global, ordered: &Ordered, text: &[u8]) -> Result<[u64; 2], Fail> {
    let board = board(alloc, text)?;
    match partition_from(alloc, ordered, &board, &[]) {
        Err(PartFault::TooManyCells { cells, room }) => Ok([cells, room]),
        _ => Err("not too many".into()),
    }
}

#[test]
fn five_cells_are_too_many_for_two_chips_of_two(rt: HostRuntime) -> Result<(), Fail> {
    let five = of_latches(rt.alloc(), 5, &[])?;
    let found = too_many(rt.alloc(), &five, TWO_EACH)?;
    are_wide_numbers(&rt, &found, &[5, 4]);
    Ok(())
}

/// Asserts how many cells a netlist has that are dealt, and how many of them to two chips of a board.
fn are_dealt(
    rt: &impl Abort,
    alloc: Global,
    ordered: Ordered,
    text: &[u8],
    count: usize,
    one: (u32, usize),
    other: (u32, usize),
) -> Result<(), Fail> {
    let chips = chips_of(alloc, &ordered, text)?;
    is_count(rt, chips.len(), count);
    is_count(rt, on_chip(chips.as_slice(), one.0), one.1);
    is_count(rt, on_chip(chips.as_slice(), other.0), other.1);
    Ok(())
}

#[test]
fn as_many_cells_as_there_is_room_for_are_dealt(rt: HostRuntime) -> Result<(), Fail> {
    let four = of_latches(rt.alloc(), 4, &[])?;
    are_dealt(&rt, rt.alloc(), four, TWO_EACH, 4, (1, 2), (2, 2))
}

/// 300 gates, each of which reads two nets before its own, behind 10 inputs.
fn tangle(alloc: Global) -> Result<Ordered, Fail> {
    let mut cells = Vec::new(alloc);
    for number in 0..300u32 {
        let nets = 10 + number;
        cells.push(gate(alloc, &[number * 7919 % nets, number * 31 / 32 + 3])?)?;
    }
    ordered(alloc, 10, cells, &[309, 100, 200])
}

/// How many pairs are needed where one cell is moved to a chip.
fn moved_pairs(
    alloc: Global,
    ordered: &Ordered,
    chips: &[u32],
    cell: usize,
    chip: u32,
) -> Result<usize, Fail> {
    let mut moved = chips.to_vec(alloc)?;
    if let Some(old) = moved.get_mut(cell) {
        *old = chip;
    }
    pairs(alloc, ordered, &moved)
}

/// Asserts that at least so many pairs are needed where one cell is moved to a chip that has room for it.
fn no_move_helps(
    rt: &impl Abort,
    alloc: Global,
    ordered: &Ordered,
    chips: &[u32],
    chip: u32,
    least: usize,
) -> Result<(), Fail> {
    let load = on_chip(chips, chip);
    assert!(rt; load <= 80);
    if load < 80 {
        for cell in 0..chips.len() {
            let moved = moved_pairs(alloc, ordered, chips, cell, chip)?;
            assert!(rt; least <= moved, "cell {cell} to chip {chip}");
        }
    }
    Ok(())
}

/// Asserts that no cell is on the host, and that no move of one cell to another chip of four leaves fewer pairs.
fn no_moves_help(
    rt: &impl Abort,
    alloc: Global,
    ordered: &Ordered,
    chips: &[u32],
) -> Result<(), Fail> {
    let least = pairs(alloc, ordered, chips)?;
    is_count(rt, on_chip(chips, 0), 0);
    for chip in 1..5u32 {
        no_move_helps(rt, alloc, ordered, chips, chip, least)?;
    }
    Ok(())
}

#[test]
fn no_move_lowers_the_pairs_of_a_tangle(rt: HostRuntime) -> Result<(), Fail> {
    let tangle = tangle(rt.alloc())?;
    let chips = chips_of(rt.alloc(), &tangle, RING)?;
    no_moves_help(&rt, rt.alloc(), &tangle, chips.as_slice())
}

/// Asserts that the cells of the tangle are dealt well by these wishes: each to a chip, none to a full one, and so that no move
/// helps.
fn tangle_is_dealt(rt: &impl Abort, alloc: Global, wishes: &[u32]) -> Result<(), Fail> {
    let tangle = tangle(alloc)?;
    let chips = chips_from(alloc, &tangle, RING, wishes)?;
    no_moves_help(rt, alloc, &tangle, chips.as_slice())
}

/// Asserts the same where each cell of the tangle wishes for this chip.
fn tangle_is_dealt_to(rt: &impl Abort, alloc: Global, chip: u32) -> Result<(), Fail> {
    let wishes = vec![in alloc; chip; 300]?;
    tangle_is_dealt(rt, alloc, wishes.as_slice())
}

#[test]
fn wishes_for_one_chip_alone_are_dealt(rt: HostRuntime) -> Result<(), Fail> {
    tangle_is_dealt_to(&rt, rt.alloc(), 3)
}

#[test]
fn wishes_for_the_host_are_dealt(rt: HostRuntime) -> Result<(), Fail> {
    tangle_is_dealt_to(&rt, rt.alloc(), 0)
}

#[test]
fn wishes_for_a_chip_that_is_not_there_are_dealt(rt: HostRuntime) -> Result<(), Fail> {
    tangle_is_dealt_to(&rt, rt.alloc(), 5)
}

#[test]
fn wishes_for_the_greatest_number_are_dealt(rt: HostRuntime) -> Result<(), Fail> {
    tangle_is_dealt_to(&rt, rt.alloc(), u32::MAX)
}

#[test]
fn cells_without_wishes_are_dealt(rt: HostRuntime) -> Result<(), Fail> {
    tangle_is_dealt(&rt, rt.alloc(), &[])
}

#[test]
fn a_few_wishes_are_dealt(rt: HostRuntime) -> Result<(), Fail> {
    tangle_is_dealt(&rt, rt.alloc(), &[4, 0, 2, 9, 2])
}

/// Two chips in a ring with the host, with room for 100 cells on each.
const TWO_HUNDRED: &[u8] =
    b"board 1\nchips 2\ncells 100\nsettle 0\npins 2\nlink 0 1 1\nlink 1 2 1\nlink 2 0 1\n";

/// 200 gates, each of which reads the two before it that have the same parity.
fn chains(alloc: Global) -> Result<Ordered, Fail> {
    let mut cells = Vec::new(alloc);
    for number in 0..200u32 {
        let before = number.saturating_sub(1);
        let earlier = number.saturating_sub(3);
        // nets of cells with the same parity; the first two cells read the input alone
        let first = if number < 2 { 0 } else { before };
        let second = if number < 4 { first } else { earlier };
        cells.push(gate(alloc, &[first, second])?)?;
    }
    ordered(alloc, 1, cells, &[])
}

#[test]
fn two_chains_whose_cells_alternate_are_apart(rt: HostRuntime) -> Result<(), Fail> {
    // the input at both chips
    has_pairs(&rt, rt.alloc(), chains(rt.alloc())?, TWO_HUNDRED, 2)
}

/// Forty rings of eight latches, whose cells take turns; ten rings just fill a chip.
fn rings(alloc: Global) -> Result<Ordered, Fail> {
    let mut cells = Vec::new(alloc);
    for number in 0..320u32 {
        cells.push(latch((number + 40) % 320))?;
    }
    ordered(alloc, 0, cells, &[])
}

#[test]
fn rings_whose_cells_are_mixed_stay_whole(rt: HostRuntime) -> Result<(), Fail> {
    has_pairs(&rt, rt.alloc(), rings(rt.alloc())?, RING, 0)
}

/// 65536 gates, each of which reads the net before its own, and one that is half as far.
fn chain(alloc: Global) -> Result<Ordered, Fail> {
    let mut cells = Vec::new(alloc);
    for number in 0..65536u32 {
        cells.push(gate(alloc, &[number, number / 2])?)?;
    }
    ordered(alloc, 1, cells, &[65536])
}

/// 32 chips in a ring with the host, which just have room for these gates.
const MOST: &[u8] =
    b"board 1\nchips 32\ncells 2048\nsettle 0\npins 2\nlink 32 0 1\nlink 0 1 1\nlink 1 2 1\nlink 2 3 1\nlink 3 4 1\nlink 4 5 1\nlink 5 6 1\nlink 6 7 1\nlink 7 8 1\nlink 8 9 1\nlink 9 10 1\nlink 10 11 1\nlink 11 12 1\nlink 12 13 1\nlink 13 14 1\nlink 14 15 1\nlink 15 16 1\nlink 16 17 1\nlink 17 18 1\nlink 18 19 1\nlink 19 20 1\nlink 20 21 1\nlink 21 22 1\nlink 22 23 1\nlink 23 24 1\nlink 24 25 1\nlink 25 26 1\nlink 26 27 1\nlink 27 28 1\nlink 28 29 1\nlink 29 30 1\nlink 30 31 1\nlink 31 32 1\n";

#[test]
fn the_most_cells_and_chips_are_dealt(rt: HostRuntime) -> Result<(), Fail> {
    let chain = chain(rt.alloc())?;
    are_dealt(&rt, rt.alloc(), chain, MOST, 65536, (1, 2048), (32, 2048))
}

use crate::boards::{TRIANGLE, board};
use crate::netlists::{Netlist, Part, made, of_latches};
use crate::plans::plan_of;
use crate::same::are_bytes;
use std::alloc::{AllocError, Global};
use std::process::Abort;
use std::test::Fail;
use vw_check::check;
use vw_net::Ordered;
use vw_plan::{Board, Plan};

/// The message of the fault of a plan; nothing where it is sound.
fn message(
    alloc: Global,
    ordered: Ordered,
    board: Board,
    plan: Plan,
) -> Result<Vec<u8>, AllocError> {
    match check(alloc, ordered, board, plan) {
        Ok(_) => Ok(Vec::new(alloc)),
        Err(refused) => refused.fault.text(alloc),
    }
}

/// The message for a netlist and the texts of a board and a plan.
fn message_of(
    alloc: Global,
    ordered: Ordered,
    board_text: &[u8],
    plan_text: &[u8],
) -> Result<Vec<u8>, Fail> {
    let plan = plan_of(alloc, plan_text)?;
    let board = board(alloc, board_text)?;
    Ok(message(alloc, ordered, board, plan)?)
}

/// Asserts the message for a netlist and the texts of a board and a plan.
fn is_message(
    rt: &impl Abort,
    alloc: Global,
    ordered: Ordered,
    board_text: &[u8],
    plan_text: &[u8],
    wanted: &[u8],
) -> Result<(), Fail> {
    let found = message_of(alloc, ordered, board_text, plan_text)?;
    are_bytes(rt, &found, wanted, plan_text);
    Ok(())
}

/// The same with room for two cells on each chip, where gates take a microcycle to settle.
const ROOMY: &[u8] =
    b"board 1\nchips 2\ncells 2\nsettle 1\npins 4\nlink 0 1 1\nlink 0 2 1\nlink 1 0 1\nlink 1 2 1\nlink 2 0 1\nlink 2 1 1\n";

/// A gate that reads the input and a latch, which reads the gate and is the output.
const TOGGLE: Netlist = Netlist {
    inputs: 1,
    parts: &[Part::Gate(&[0, 2]), Part::Latch(1)],
    outputs: &[2],
};

/// Asserts the message for each plan of the toggle on a board.
fn are_messages(
    rt: &impl Abort,
    alloc: Global,
    board: &[u8],
    table: &[(&[u8], &[u8])],
) -> Result<(), Fail> {
    for (plan, wanted) in table {
        let toggle = made(alloc, &TOGGLE)?;
        is_message(rt, alloc, toggle, board, plan, wanted)?;
    }
    Ok(())
}

/// Plans for the triangle.
const PLANS: &[(&[u8], &[u8])] = &[
    (
        b"plan 1 2 4 2\nchips 1 2\nwire 0 1 1\nhop 0 1 0 0\nwire 1 2 1\nhop 1 2 0 1\nwire 2 0 1\nhop 2 0 0 0\nwire 2 1 1\nhop 2 1 0 0\nend\n",
        b"",
    ),
    (
        b"plan 1 3 0 0\nchips 1 2 1\nend\n",
        b"plan 3: 3 cells, wanted 2\n",
    ),
    (b"plan 1 2 0 0\nchips 0 9\nend\n", b"plan 4: period 0\n"),
    (
        b"plan 1 2 0 1\nchips 1 3\nend\n",
        b"plan 5: cell 1 has no chip\n",
    ),
    (
        b"plan 1 2 0 1\nchips 2 2\nend\n",
        b"plan 6: chip 2 has 2 cells\n",
    ),
    (
        b"plan 1 2 3 2\nchips 1 2\nwire 0 1 1\nhop 0 1 0 0\nwire 1 2 1\nhop 1 2 0 1\nwire 2 1 1\nhop 2 1 0 0\nend\n",
        b"plan 7: no wire of net 2 to node 0\n",
    ),
    // a second wire of a pair, and a wire that goes nowhere
    (
        b"plan 1 2 5 2\nchips 1 2\nwire 0 1 1\nhop 0 1 0 0\nwire 1 2 1\nhop 1 2 0 1\nwire 0 1 0\nwire 2 0 1\nhop 2 0 0 0\nwire 2 1 1\nhop 2 1 0 0\nend\n",
        b"plan 8: wire 2 isn't needed\n",
    ),
    (
        b"plan 1 2 4 2\nchips 1 2\nwire 0 1 1\nhop 0 1 0 0\nwire 1 2 1\nhop 1 2 0 1\nwire 2 0 0\nwire 2 1 1\nhop 2 0 0 0\nend\n",
        b"plan 9: wire 2 hop 0 breaks the route\n",
    ),
    (
        b"plan 1 2 4 2\nchips 1 2\nwire 0 1 1\nhop 0 1 0 0\nwire 1 2 1\nhop 1 2 1 1\nwire 2 0 1\nhop 2 0 0 0\nwire 2 1 1\nhop 2 1 0 0\nend\n",
        b"plan 10: wire 1 hop 0 has no pin\n",
    ),
    (
        b"plan 1 2 4 2\nchips 1 2\nwire 0 1 2\nhop 0 2 0 0\nhop 2 1 0 0\nwire 1 2 1\nhop 1 2 0 1\nwire 2 0 1\nhop 2 0 0 0\nwire 2 1 1\nhop 2 1 0 0\nend\n",
        b"plan 11: wire 0 hop 1 is out of order\n",
    ),
    (
        b"plan 1 2 4 2\nchips 1 2\nwire 0 1 1\nhop 0 1 0 0\nwire 1 2 1\nhop 1 2 0 1\nwire 2 0 1\nhop 2 0 0 2\nwire 2 1 1\nhop 2 1 0 0\nend\n",
        b"plan 12: wire 2 hop 0 is past the period\n",
    ),
    // two wires to node 1 that don't begin at one node
    (
        b"plan 1 2 4 3\nchips 1 2\nwire 0 1 2\nhop 0 2 0 0\nhop 2 1 0 1\nwire 1 2 1\nhop 1 2 0 2\nwire 2 0 1\nhop 2 0 0 0\nwire 2 1 1\nhop 2 1 0 1\nend\n",
        b"plan 13: wire 0 hop 1 and wire 3 hop 0 share a pin\n",
    ),
    // two wires to different nodes
    (
        b"plan 1 2 4 3\nchips 1 2\nwire 2 1 1\nhop 2 1 0 0\nwire 0 1 1\nhop 0 1 0 0\nwire 1 2 1\nhop 1 2 0 2\nwire 2 0 2\nhop 2 1 0 0\nhop 1 0 0 1\nend\n",
        b"plan 13: wire 0 hop 0 and wire 3 hop 0 share a pin\n",
    ),
    (
        b"plan 1 2 4 2\nchips 1 2\nwire 0 1 1\nhop 0 1 0 0\nwire 1 2 1\nhop 1 2 0 0\nwire 2 0 1\nhop 2 0 0 0\nwire 2 1 1\nhop 2 1 0 0\nend\n",
        b"plan 14: wire 1 sent at 0, usable at 1\n",
    ),
    // the order of wires is free
    (
        b"plan 1 2 4 2\nchips 1 2\nwire 2 1 1\nhop 2 1 0 0\nwire 1 2 1\nhop 1 2 0 1\nwire 0 1 1\nhop 0 1 0 0\nwire 2 0 1\nhop 2 0 0 1\nend\n",
        b"",
    ),
];

#[test]
fn the_first_fault_of_a_plan_is_named(rt: HostRuntime) -> Result<(), Fail> {
    are_messages(&rt, rt.alloc(), TRIANGLE, PLANS)
}

/// Plans for the board where gates settle.
const SETTLING: &[(&[u8], &[u8])] = &[
    (
        b"plan 1 2 4 2\nchips 1 2\nwire 0 1 1\nhop 0 1 0 0\nwire 1 2 1\nhop 1 2 0 1\nwire 2 0 1\nhop 2 0 0 0\nwire 2 1 1\nhop 2 1 0 0\nend\n",
        b"plan 14: wire 1 sent at 1, usable at 2\n",
    ),
    (
        b"plan 1 2 4 3\nchips 1 2\nwire 0 1 1\nhop 0 1 0 0\nwire 1 2 1\nhop 1 2 0 2\nwire 2 0 1\nhop 2 0 0 0\nwire 2 1 1\nhop 2 1 0 0\nend\n",
        b"",
    ),
    // the latch reads a gate of its own chip
    (
        b"plan 1 2 2 2\nchips 1 1\nwire 0 1 1\nhop 0 1 0 0\nwire 2 0 1\nhop 1 0 0 0\nend\n",
        b"",
    ),
    (
        b"plan 1 2 2 1\nchips 1 1\nwire 0 1 1\nhop 0 1 0 0\nwire 2 0 1\nhop 1 0 0 0\nend\n",
        b"plan 15: latch 1 usable at 2\n",
    ),
];

#[test]
fn gates_take_their_time_to_settle(rt: HostRuntime) -> Result<(), Fail> {
    are_messages(&rt, rt.alloc(), ROOMY, SETTLING)
}

/// The triangle with room for two cells on each chip, whose links take up to 4 microcycles.
const DELAYED: &[u8] =
    b"board 2\nchips 2\ncells 2\nsettle 0\npins 4\nlink 0 1 1 1\nlink 0 2 1 2\nlink 1 0 1 1\nlink 1 2 1 3\nlink 2 0 1 1\nlink 2 1 1 4\n";

/// Plans for the board with delays.
const ARRIVALS: &[(&[u8], &[u8])] = &[
    // sent at 0, the latch arrives at 3; sent at 4, the gate arrives at 6 and is usable at 7
    (
        b"plan 1 2 4 7\nchips 1 2\nwire 0 1 1\nhop 0 1 0 0\nwire 1 2 1\nhop 1 2 0 4\nwire 2 0 1\nhop 2 0 0 0\nwire 2 1 1\nhop 2 1 0 0\nend\n",
        b"",
    ),
    (
        b"plan 1 2 4 6\nchips 1 2\nwire 0 1 1\nhop 0 1 0 0\nwire 1 2 1\nhop 1 2 0 4\nwire 2 0 1\nhop 2 0 0 0\nwire 2 1 1\nhop 2 1 0 0\nend\n",
        b"plan 12: wire 1 hop 0 is past the period\n",
    ),
    (
        b"plan 1 2 4 7\nchips 1 2\nwire 0 1 1\nhop 0 1 0 0\nwire 1 2 1\nhop 1 2 0 3\nwire 2 0 1\nhop 2 0 0 0\nwire 2 1 1\nhop 2 1 0 0\nend\n",
        b"plan 14: wire 1 sent at 3, usable at 4\n",
    ),
    // the input comes over chip 2: sent at 0 it arrives at 1, sent on at 2 it arrives at 5
    (
        b"plan 1 2 4 9\nchips 1 2\nwire 0 1 2\nhop 0 2 0 0\nhop 2 1 0 2\nwire 1 2 1\nhop 1 2 0 6\nwire 2 0 1\nhop 2 0 0 0\nwire 2 1 1\nhop 2 1 0 0\nend\n",
        b"",
    ),
    (
        b"plan 1 2 4 9\nchips 1 2\nwire 0 1 2\nhop 0 2 0 0\nhop 2 1 0 1\nwire 1 2 1\nhop 1 2 0 6\nwire 2 0 1\nhop 2 0 0 0\nwire 2 1 1\nhop 2 1 0 0\nend\n",
        b"plan 11: wire 0 hop 1 is out of order\n",
    ),
];

#[test]
fn what_arrives_late_is_late(rt: HostRuntime) -> Result<(), Fail> {
    are_messages(&rt, rt.alloc(), DELAYED, ARRIVALS)
}

/// A plan of 65536 cells, which take turns on two chips.
fn long_plan(alloc: Global) -> Result<Vec<u8>, AllocError> {
    let mut plan = b"plan 1 65536 2 1\nchips".to_vec(alloc)?;
    for _ in 0..32768 {
        plan.extend_from_slice(b" 1 2")?;
    }
    plan.extend_from_slice(b"\nwire 0 1 1\nhop 0 1 0 0\nwire 0 2 1\nhop 0 2 0 0\nend\n")?;
    Ok(plan)
}

#[test]
fn a_plan_of_65536_cells_is_checked(rt: HostRuntime) -> Result<(), Fail> {
    let plan = long_plan(rt.alloc())?;
    let board =
        b"board 1\nchips 2\ncells 32768\nsettle 0\npins 2\nlink 0 1 1\nlink 0 2 1\nlink 1 0 1\nlink 2 0 1\n";
    let wide = of_latches(rt.alloc(), 65536, &[0])?;
    is_message(&rt, rt.alloc(), wide, board, &plan, b"")
}

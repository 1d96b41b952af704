//! Programs of nodes.
use crate::boards::board;
use crate::netlists::{Netlist, Part, made};
use crate::plans::plan_of;
use crate::same::are_numbers;
use std::alloc::{AllocError, Global};
use std::process::Abort;
use std::test::Fail;
use vw_check::check;
use vw_plan::Checked;
use vw_prog::{Action, Programs};

/// An action in numbers: 0 for a gate, 1 for a send, 2 for a take and 3 for the step; then link, pin, and net or gate.
fn numbers(action: &Action) -> [u32; 4] {
    match *action {
        Action::Evaluate(gate) => [0, 0, 0, gate],
        Action::Send { link, pin, net } => [1, link, pin, net],
        Action::Take { link, pin, net } => [2, link, pin, net],
        Action::Step => [3, 0, 0, 0],
    }
}

/// The actions of all nodes for one clock.
fn all_numbers(alloc: Global, checked: &Checked) -> Result<Vec<u32>, AllocError> {
    let programs = Programs::build(alloc, checked)?;
    let mut all = Vec::new(alloc);
    for node in 0..checked.board().chips() + 1 {
        for number in 0..programs.count(node) {
            all.extend_from_slice(&numbers(&programs.action(node, number)))?;
        }
    }
    Ok(all)
}

/// A gate that reads the input and a latch, which reads the gate and is the output.
const TOGGLE: Netlist = Netlist {
    inputs: 1,
    parts: &[Part::Gate(&[0, 2]), Part::Latch(1)],
    outputs: &[2],
};

/// Boards of two chips and plans of the toggle on them. The second board has a link over which a bit takes two microcycles, and
/// its plan has the greatest period.
const PLANS: &[(&[u8], &[u8])] = &[
    (
        b"board 1\nchips 2\ncells 1\nsettle 0\npins 4\nlink 0 1 1\nlink 0 2 1\nlink 1 0 1\nlink 1 2 1\nlink 2 0 1\nlink 2 1 1\n",
        b"plan 1 2 4 2\nchips 1 2\nwire 0 1 1\nhop 0 1 0 0\nwire 1 2 1\nhop 1 2 0 1\nwire 2 0 1\nhop 2 0 0 0\nwire 2 1 1\nhop 2 1 0 0\nend\n",
    ),
    (
        b"board 2\nchips 2\ncells 1\nsettle 0\npins 4\nlink 0 1 1 1\nlink 0 2 1 1\nlink 1 0 1 1\nlink 1 2 1 2\nlink 2 0 1 1\nlink 2 1 1 1\n",
        b"plan 1 2 4 4611686018427387904\nchips 1 2\nwire 0 1 1\nhop 0 1 0 0\nwire 1 2 1\nhop 1 2 0 1\nwire 2 0 1\nhop 2 0 0 0\nwire 2 1 1\nhop 2 1 0 0\nend\n",
    ),
];

/// The host has three actions, the chip of the gate five, and that of the latch four.
const ACTIONS: &[u32] = &[
    1, 0, 0, 0, 2, 4, 0, 2, 3, 0, 0, 0, 2, 0, 0, 0, 2, 5, 0, 2, 0, 0, 0, 0, 1, 3, 0, 1, 3, 0, 0, 0,
    1, 4, 0, 2, 1, 5, 0, 2, 2, 3, 0, 1, 3, 0, 0, 0,
];

/// Asserts the actions of the toggle on a board, by a plan.
fn are_actions(rt: &impl Abort, alloc: Global, board_text: &[u8], plan: &[u8]) -> Result<(), Fail> {
    let toggle = made(alloc, &TOGGLE)?;
    let plan = plan_of(alloc, plan)?;
    let board = board(alloc, board_text)?;
    let checked = check(alloc, toggle, board, plan)
        .ok()
        .ok_or("no sound plan")?;
    let all = all_numbers(alloc, &checked)?;
    are_numbers(rt, &all, ACTIONS);
    Ok(())
}

#[test]
fn each_node_has_its_actions_in_order(rt: HostRuntime) -> Result<(), Fail> {
    for (board, plan) in PLANS {
        are_actions(&rt, rt.alloc(), board, plan)?;
    }
    Ok(())
}

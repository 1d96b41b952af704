ghost use Rattle.std.specs.Prelude.{◌≡◌, ◌≤◌, ℕ, length, IfOk};
ghost use Rattle.std.specs.List.{All};
ghost use Rattle.vw_plan.specs.Chips.{IsChip};
ghost use Rattle.vw_plan.specs.Routes.{AreRoutes};

use crate::boards::{are_chips, board};
use crate::netlists::{Netlist, Part, made};
use crate::plans::numbers_of;
use crate::same::are_wide_numbers;
use std::alloc::{AllocError, Global};
use std::process::Abort;
use std::test::Fail;
use vw_board::Distances;
use vw_net::{Ordered, Sequence};
use vw_pipe::{Priority, schedule};
use vw_plan::{Board, Plan, Route};
use vw_run::{Routing, routes_of};

/// The shortest routes of a placement.
fn routes(
    alloc: Global,
    ordered: &Ordered,
    board: &Board,
    chips: &[u32],
) -> Result<Sequence<Route>, AllocError>
    requires each { length chips.now ≡ length ordered.now.flat.cells }
    requires chips { All (IsChip board.now) chips.now }
    ensures { IfOk result (AreRoutes ordered.now.flat board.now chips.now) }
{
    let distances = Distances::of(alloc, board)?;
    routes_of(
        alloc,
        ordered,
        board,
        &distances,
        chips,
        Routing::FirstSteps,
    )
}

/// The schedule of a placement by hand, with shortest routes.
fn scheduled(alloc: Global, ordered: &Ordered, board: &Board, chips: &[u32]) -> Result<Plan, Fail> {
    if chips.len() != ordered.flat().cells().len()
        || chips.len() > board.cells() as usize
        || !are_chips(board, chips)
    {
        return Err("no placement".into());
    }
    let routes = routes(alloc, ordered, board, chips)?;
    let chip_of = Sequence::of(chips.to_vec(alloc)?);
    match schedule(alloc, ordered, board, chip_of, routes, Priority::Nets) {
        Ok(plan) => Ok(plan),
        Err(_) => Err("no memory".into()),
    }
}

/// A netlist, a board with its cells on these chips, and the numbers of its schedule, worked out by hand.
#[derive(Clone, Copy)]
struct Case<'a> {
    netlist: Netlist<'a>,
    board: &'a [u8],
    chips: &'a [u32],
    numbers: &'a [u64],
}

/// The numbers of the schedule of a placement.
fn answer_on(
    alloc: Global,
    ordered: &Ordered,
    board: &Board,
    chips: &[u32],
) -> Result<Vec<u64>, Fail> {
    let plan = scheduled(alloc, ordered, board, chips)?;
    Ok(numbers_of(alloc, &plan)?)
}

/// The numbers of the schedule of a case.
fn answer(alloc: Global, case: &Case) -> Result<Vec<u64>, Fail> {
    let netlist = made(alloc, &case.netlist)?;
    let board = board(alloc, case.board)?;
    answer_on(alloc, &netlist, &board, case.chips)
}

/// Asserts that each case has its schedule.
fn are_scheduled(rt: &impl Abort, alloc: Global, cases: &[Case]) -> Result<(), Fail> {
    for case in cases {
        let found = answer(alloc, case)?;
        are_wide_numbers(rt, &found, case.numbers);
    }
    Ok(())
}

/// Two chips with room for eight cells each, and the host, each joined to each other by one pin.
const ROOMY: &[u8] =
    b"board 1\nchips 2\ncells 8\nsettle 0\npins 4\nlink 0 1 1\nlink 0 2 1\nlink 1 0 1\nlink 1 2 1\nlink 2 0 1\nlink 2 1 1\n";

/// The same, with gates that take a microcycle to settle.
const SETTLING: &[u8] =
    b"board 1\nchips 2\ncells 8\nsettle 1\npins 4\nlink 0 1 1\nlink 0 2 1\nlink 1 0 1\nlink 1 2 1\nlink 2 0 1\nlink 2 1 1\n";

/// The same, with gates that take three.
const SLOW: &[u8] =
    b"board 1\nchips 2\ncells 8\nsettle 3\npins 4\nlink 0 1 1\nlink 0 2 1\nlink 1 0 1\nlink 1 2 1\nlink 2 0 1\nlink 2 1 1\n";

/// The same with links of two pins.
const WIDE: &[u8] =
    b"board 1\nchips 2\ncells 8\nsettle 0\npins 8\nlink 0 1 2\nlink 0 2 2\nlink 1 0 2\nlink 1 2 2\nlink 2 0 2\nlink 2 1 2\n";

/// A chip behind the host, with one pin each way.
const ONE_CHIP: &[u8] = b"board 1\nchips 1\ncells 2\nsettle 0\npins 2\nlink 0 1 1\nlink 1 0 1\n";

/// A ring of four chips, over whose links a bit takes 1, 2, 3 and 16 microcycles, and the host beside chip 1.
const RING: &[u8] =
    b"board 2\nchips 4\ncells 8\nsettle 0\npins 8\nlink 1 2 1 1\nlink 2 3 1 2\nlink 3 4 1 3\nlink 4 1 1 16\nlink 0 1 1 1\nlink 1 0 1 1\n";

/// Three chips in a row behind the host.
const ROW: &[u8] =
    b"board 1\nchips 3\ncells 8\nsettle 0\npins 4\nlink 0 1 1\nlink 1 0 1\nlink 1 2 1\nlink 2 1 1\nlink 2 3 1\nlink 3 2 1\n";

/// A gate that reads the input and a latch, which reads the gate and is the output. What the gate says is known when both
/// have arrived.
const TOGGLE: Netlist = Netlist {
    inputs: 1,
    parts: &[Part::Gate(&[0, 2]), Part::Latch(1)],
    outputs: &[2],
};

const TOGGLES: &[Case] = &[
    Case {
        netlist: TOGGLE,
        board: ROOMY,
        chips: &[1, 2],
        numbers: &[
            0, 1, 0, 1, 0, 0, 1, 2, 1, 2, 0, 1, 2, 0, 2, 0, 0, 0, 2, 1, 2, 1, 0, 0, 2,
        ],
    },
    Case {
        netlist: TOGGLE,
        board: ROOMY,
        chips: &[2, 1],
        numbers: &[
            0, 2, 0, 2, 0, 0, 1, 1, 2, 1, 0, 1, 2, 0, 1, 0, 0, 0, 2, 2, 1, 2, 0, 0, 2,
        ],
    },
    // the gate is sent a microcycle later
    Case {
        netlist: TOGGLE,
        board: SETTLING,
        chips: &[1, 2],
        numbers: &[
            0, 1, 0, 1, 0, 0, 1, 2, 1, 2, 0, 2, 2, 0, 2, 0, 0, 0, 2, 1, 2, 1, 0, 0, 3,
        ],
    },
    // the latch reads a gate of its own chip: 1 to arrive, 3 to settle
    Case {
        netlist: TOGGLE,
        board: SLOW,
        chips: &[1, 1],
        numbers: &[0, 1, 0, 1, 0, 0, 2, 0, 1, 0, 0, 0, 4],
    },
    // the gate reads the input at 3, behind two chips, and its two hops follow at once
    Case {
        netlist: TOGGLE,
        board: ROW,
        chips: &[3, 1],
        numbers: &[
            0, 3, 0, 1, 0, 0, 0, 3, 1, 2, 0, 1, 0, 3, 2, 3, 0, 2, 1, 1, 3, 2, 0, 3, 1, 1, 2, 1, 0,
            4, 2, 0, 1, 0, 0, 0, 2, 3, 1, 2, 0, 0, 2, 3, 2, 3, 0, 1, 5,
        ],
    },
];

#[test]
fn a_gate_is_sent_when_all_that_it_reads_is_there(rt: HostRuntime) -> Result<(), Fail> {
    are_scheduled(&rt, rt.alloc(), TOGGLES)
}

/// A gate that reads two inputs.
const GATE: Netlist = Netlist {
    inputs: 2,
    parts: &[Part::Gate(&[0, 1])],
    outputs: &[],
};

const TURNS: &[Case] = &[
    // two inputs over one pin
    Case {
        netlist: GATE,
        board: ROOMY,
        chips: &[1],
        numbers: &[0, 1, 0, 1, 0, 0, 1, 1, 0, 1, 0, 1, 2],
    },
    // and over two
    Case {
        netlist: GATE,
        board: WIDE,
        chips: &[1],
        numbers: &[0, 1, 0, 1, 0, 0, 1, 1, 0, 1, 1, 0, 1],
    },
    // the wire with the longer way takes the first slot, and the other one waits
    Case {
        netlist: Netlist {
            inputs: 2,
            parts: &[Part::Latch(0), Part::Latch(1)],
            outputs: &[],
        },
        board: ROW,
        chips: &[1, 2],
        numbers: &[0, 1, 0, 1, 0, 1, 1, 2, 0, 1, 0, 0, 1, 2, 1, 2, 0, 1, 2],
    },
    // two wires over the last link, the shorter one before the longer one
    Case {
        netlist: Netlist {
            inputs: 1,
            parts: &[Part::Latch(0), Part::Latch(1), Part::Latch(2)],
            outputs: &[],
        },
        board: ROW,
        chips: &[3, 2, 3],
        numbers: &[
            0, 3, 0, 1, 0, 0, 0, 3, 1, 2, 0, 1, 0, 3, 2, 3, 0, 2, 1, 2, 3, 2, 0, 0, 2, 3, 2, 3, 0,
            0, 3,
        ],
    },
];

#[test]
fn wires_that_share_a_link_take_turns(rt: HostRuntime) -> Result<(), Fail> {
    are_scheduled(&rt, rt.alloc(), TURNS)
}

/// Four gates, of which each but the first reads the one before it. The last one reads the input too.
const CHAIN: Netlist = Netlist {
    inputs: 1,
    parts: &[
        Part::Gate(&[0]),
        Part::Gate(&[1]),
        Part::Gate(&[2]),
        Part::Gate(&[0, 3]),
    ],
    outputs: &[4, 0],
};

const DEEPER: &[Case] = &[
    // the gate on chip 2 has what it reads after 1 microcycle, and is sent before the input has come to chip 3
    Case {
        netlist: Netlist {
            inputs: 1,
            parts: &[
                Part::Latch(0),
                Part::Latch(2),
                Part::Gate(&[2]),
                Part::Latch(3),
            ],
            outputs: &[],
        },
        board: ROW,
        chips: &[3, 1, 2, 3],
        numbers: &[
            0, 3, 0, 1, 0, 0, 0, 3, 1, 2, 0, 1, 0, 3, 2, 3, 0, 2, 2, 2, 1, 2, 0, 0, 3, 3, 2, 3, 0,
            1, 3,
        ],
    },
    // four wires, of which each rests on the one before it
    Case {
        netlist: CHAIN,
        board: ROOMY,
        chips: &[1, 1, 2, 1],
        numbers: &[
            0, 1, 0, 1, 0, 0, 2, 2, 1, 2, 0, 1, 3, 1, 2, 1, 0, 2, 4, 0, 1, 0, 0, 3, 4,
        ],
    },
    // two outputs, of which the first is sent while the second input is still on its way
    Case {
        netlist: Netlist {
            inputs: 2,
            parts: &[Part::Gate(&[0]), Part::Gate(&[1])],
            outputs: &[2, 3],
        },
        board: ONE_CHIP,
        chips: &[1, 1],
        numbers: &[
            0, 1, 0, 1, 0, 0, 1, 1, 0, 1, 0, 1, 2, 0, 1, 0, 0, 1, 3, 0, 1, 0, 0, 2, 3,
        ],
    },
    // each of the three gates that are sent settles first
    Case {
        netlist: CHAIN,
        board: SETTLING,
        chips: &[1, 1, 2, 1],
        numbers: &[
            0, 1, 0, 1, 0, 0, 2, 2, 1, 2, 0, 2, 3, 1, 2, 1, 0, 4, 4, 0, 1, 0, 0, 6, 7,
        ],
    },
];

#[test]
fn wires_wait_for_what_they_rest_on_alone(rt: HostRuntime) -> Result<(), Fail> {
    are_scheduled(&rt, rt.alloc(), DEEPER)
}

const WITHOUT: &[Case] = &[
    // a gate that reads a latch of its chip is sent once it has settled
    Case {
        netlist: Netlist {
            inputs: 0,
            parts: &[Part::Latch(0), Part::Gate(&[0]), Part::Latch(1)],
            outputs: &[],
        },
        board: SLOW,
        chips: &[1, 1, 2],
        numbers: &[1, 2, 1, 2, 0, 3, 4],
    },
    // no wire at all, and a latch that reads a gate
    Case {
        netlist: Netlist {
            inputs: 0,
            parts: &[Part::Latch(1), Part::Gate(&[0])],
            outputs: &[],
        },
        board: SLOW,
        chips: &[2, 2],
        numbers: &[3],
    },
    // nor any gate
    Case {
        netlist: Netlist {
            inputs: 0,
            parts: &[Part::Latch(0)],
            outputs: &[],
        },
        board: SLOW,
        chips: &[1],
        numbers: &[1],
    },
];

#[test]
fn gates_without_wires_before_them_settle_too(rt: HostRuntime) -> Result<(), Fail> {
    are_scheduled(&rt, rt.alloc(), WITHOUT)
}

const RINGS: &[Case] = &[
    // from gate to gate once round the ring: sent at 0, 1, 2, 4 and 7, the bit arrives at 0, 1, 3, 6 and 22
    Case {
        netlist: Netlist {
            inputs: 1,
            parts: &[
                Part::Gate(&[0]),
                Part::Gate(&[1]),
                Part::Gate(&[2]),
                Part::Gate(&[3]),
                Part::Latch(4),
            ],
            outputs: &[5],
        },
        board: RING,
        chips: &[1, 2, 3, 4, 1],
        numbers: &[
            0, 1, 0, 1, 0, 0, 1, 2, 1, 2, 0, 1, 2, 3, 2, 3, 0, 2, 3, 4, 3, 4, 0, 4, 4, 1, 4, 1, 0,
            7, 5, 0, 1, 0, 0, 0, 23,
        ],
    },
    // forwarded at 1 and 3 behind arrivals at 0 and 2, and at 16 and 17 behind arrivals at 15 and 16
    Case {
        netlist: Netlist {
            inputs: 0,
            parts: &[Part::Latch(0), Part::Latch(0), Part::Latch(1)],
            outputs: &[],
        },
        board: RING,
        chips: &[1, 4, 3],
        numbers: &[
            0, 4, 1, 2, 0, 0, 0, 4, 2, 3, 0, 1, 0, 4, 3, 4, 0, 3, 1, 3, 4, 1, 0, 0, 1, 3, 1, 2, 0,
            16, 1, 3, 2, 3, 0, 17, 19,
        ],
    },
    // a second bit follows at once on the same pin, while the first is under way
    Case {
        netlist: Netlist {
            inputs: 0,
            parts: &[
                Part::Latch(0),
                Part::Latch(1),
                Part::Latch(0),
                Part::Latch(1),
            ],
            outputs: &[],
        },
        board: RING,
        chips: &[4, 4, 1, 1],
        numbers: &[0, 1, 4, 1, 0, 0, 1, 1, 4, 1, 0, 1, 17],
    },
];

#[test]
fn bits_take_the_delays_of_their_links(rt: HostRuntime) -> Result<(), Fail> {
    are_scheduled(&rt, rt.alloc(), RINGS)
}

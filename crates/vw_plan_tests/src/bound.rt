use crate::boards::{are_chips, board};
use crate::netlists::{Netlist, Part, gate, latch, made, ordered};
use crate::same::{are_numbers, are_wide_numbers};
use std::alloc::{AllocError, Global};
use std::process::Abort;
use std::test::Fail;
use vw_bound::bound;
use vw_delays::Delays;
use vw_net::{Cell, Ordered};
use vw_plan::{Board, Checked};
use vw_report::report_text;
use vw_run::compile;
use vw_short_bound::short_bound;

/// The bound of the period for any sound plan, and that for plans with shortest wires.
fn bounds_on(
    alloc: Global,
    ordered: &Ordered,
    board: &Board,
    chips: &[u32],
) -> Result<[u64; 2], Fail> {
    if chips.len() != ordered.flat().cells().len() || !are_chips(board, chips) {
        return Err("no placement".into());
    }
    let any = bound(alloc, ordered, board, chips)?;
    let short = short_bound(alloc, ordered, board, chips)?;
    Ok([any, short])
}

/// A netlist, a board with its cells on these chips, and both bounds, worked out by hand.
#[derive(Clone, Copy)]
struct Case<'a> {
    netlist: Netlist<'a>,
    board: &'a [u8],
    chips: &'a [u32],
    bounds: &'a [u64],
}

/// The bounds of a case.
fn answer(alloc: Global, case: &Case) -> Result<[u64; 2], Fail> {
    let netlist = made(alloc, &case.netlist)?;
    let board = board(alloc, case.board)?;
    bounds_on(alloc, &netlist, &board, case.chips)
}

/// Asserts that each case has its bounds.
fn are_bounded(rt: &impl Abort, alloc: Global, cases: &[Case]) -> Result<(), Fail> {
    for case in cases {
        let found = answer(alloc, case)?;
        are_wide_numbers(rt, &found, case.bounds);
    }
    Ok(())
}

/// Two chips and the host, each joined to each other by one pin.
const ROOMY: &[u8] =
    b"board 1\nchips 2\ncells 8\nsettle 0\npins 4\nlink 0 1 1\nlink 0 2 1\nlink 1 0 1\nlink 1 2 1\nlink 2 0 1\nlink 2 1 1\n";

/// The same, with gates that take three microcycles to settle.
const SLOW: &[u8] =
    b"board 1\nchips 2\ncells 8\nsettle 3\npins 4\nlink 0 1 1\nlink 0 2 1\nlink 1 0 1\nlink 1 2 1\nlink 2 0 1\nlink 2 1 1\n";

/// A chip behind the host, with one pin each way.
const ONE_CHIP: &[u8] = b"board 1\nchips 1\ncells 8\nsettle 0\npins 2\nlink 0 1 1\nlink 1 0 1\n";

/// A ring of four chips, over whose links a bit takes 1, 2, 3 and 16 microcycles, and the host beside chip 1.
const RING: &[u8] =
    b"board 2\nchips 4\ncells 200\nsettle 0\npins 8\nlink 1 2 1 1\nlink 2 3 1 2\nlink 3 4 1 3\nlink 4 1 1 16\nlink 0 1 1 1\nlink 1 0 1 1\n";

/// From chip 1 to chip 3 a bit takes two microcycles by way of chip 2, and ten without.
const SHORTCUT: &[u8] =
    b"board 2\nchips 3\ncells 200\nsettle 1\npins 8\nlink 0 1 1 1\nlink 1 0 1 1\nlink 1 2 2 1\nlink 2 3 2 1\nlink 1 3 2 10\nlink 3 1 2 2\n";

/// A gate that reads the input and a latch, which reads the gate and is the output.
const TOGGLE: Netlist = Netlist {
    inputs: 1,
    parts: &[Part::Gate(&[0, 2]), Part::Latch(1)],
    outputs: &[2],
};

/// A gate of three inputs.
const THREE: Netlist = Netlist {
    inputs: 3,
    parts: &[Part::Gate(&[0, 1, 2])],
    outputs: &[3],
};

/// A gate of an input, which is the output.
const ONE: Netlist = Netlist {
    inputs: 1,
    parts: &[Part::Gate(&[0])],
    outputs: &[1],
};

/// Two gates of two inputs each, and a gate of both.
const TREE: Netlist = Netlist {
    inputs: 4,
    parts: &[
        Part::Gate(&[0, 1]),
        Part::Gate(&[2, 3]),
        Part::Gate(&[4, 5]),
    ],
    outputs: &[6],
};

/// An output that is an input, and no cell.
const WIRES: Netlist = Netlist {
    inputs: 1,
    parts: &[],
    outputs: &[0],
};

/// Depths with delays, and with gates that settle.
#[test]
fn no_period_is_below_the_depth(rt: HostRuntime) -> Result<(), Fail> {
    let cases = [
        // no wire is needed, and a period is at least 1
        Case {
            netlist: WIRES,
            board: ROOMY,
            chips: &[],
            bounds: &[1, 1],
        },
        // the input is at the gate after one microcycle, and the gate's net at the latch after one more
        Case {
            netlist: TOGGLE,
            board: ROOMY,
            chips: &[1, 2],
            bounds: &[2, 2],
        },
        // and three later where the gate has to settle
        Case {
            netlist: TOGGLE,
            board: SLOW,
            chips: &[1, 2],
            bounds: &[5, 5],
        },
        // beside the gate, the latch waits for it to settle alone
        Case {
            netlist: TOGGLE,
            board: SLOW,
            chips: &[1, 1],
            bounds: &[4, 4],
        },
        // from the host round to chip 4 in 1 + 1 + 2 + 3 microcycles, and back in 16 + 1
        Case {
            netlist: ONE,
            board: RING,
            chips: &[4],
            bounds: &[24, 24],
        },
        // the quickest way has two links more than none: 1 + 1 + 1, settled after 4, and back in 2 + 1
        Case {
            netlist: ONE,
            board: SHORTCUT,
            chips: &[3],
            bounds: &[7, 7],
        },
    ];
    are_bounded(&rt, rt.alloc(), &cases)
}

/// Pins of nodes, and of the links over which nets come last.
#[test]
fn no_period_is_below_what_pins_have_room_for(rt: HostRuntime) -> Result<(), Fail> {
    let cases = [
        // three inputs over one pin come in three microcycles, and only then the gate's net goes back
        Case {
            netlist: THREE,
            board: ONE_CHIP,
            chips: &[1],
            bounds: &[3, 4],
        },
        // by way of chip 2 a second pin leads to chip 1, but not for shortest wires
        Case {
            netlist: THREE,
            board: ROOMY,
            chips: &[1],
            bounds: &[2, 4],
        },
        // two inputs over one pin to each of two chips, and one gate's net on to the other chip: there in 3, and at the
        // host in 4
        Case {
            netlist: TREE,
            board: ROOMY,
            chips: &[1, 2, 2],
            bounds: &[3, 4],
        },
    ];
    are_bounded(&rt, rt.alloc(), &cases)
}

/// The delays of two boards from node to node, worked out by hand.
#[test]
fn delays_are_those_of_the_quickest_walks(rt: HostRuntime) -> Result<(), Fail> {
    let alloc = rt.alloc();
    let board = board(alloc, SHORTCUT)?;
    if board.chips() != 3 {
        return Err("another number of chips".into());
    }
    let delays = Delays::of(alloc, &board)?;
    let mut found = Vec::new(alloc);
    for from in 0..4u32 {
        for to in 0..4u32 {
            found.push(delays.delay(from, to))?;
        }
    }
    are_numbers(
        &rt,
        &found,
        &[0, 1, 2, 3, 1, 0, 1, 2, 4, 3, 0, 1, 3, 2, 3, 0],
    );
    Ok(())
}

/// So many cells over eight inputs: each seventh is a latch, and the others are gates of two nets before them.
fn grown(alloc: Global, count: u32) -> Result<Ordered, Fail> {
    let mut cells: Vec<Cell> = Vec::new(alloc);
    let mut state: u32 = 7;
    for number in 0..count {
        state = (state % 65_537 * 75 + 74) % 65_537;
        let one = state % (8 + number % 65_536);
        let other = state / 3 % (8 + number % 65_536);
        if number % 7 == 6 {
            cells.push(latch(one))?;
        } else {
            cells.push(gate(alloc, &[one, other])?)?;
        }
    }
    ordered(alloc, 8, cells, &[8])
}

/// A generated design on a board, by a good plan.
fn compiled(alloc: Global, count: u32, text: &[u8]) -> Result<Checked, Fail> {
    let ordered = grown(alloc, count)?;
    let board = board(alloc, text)?;
    Ok(compile(alloc, ordered, board).ok().ok_or("no plan")?)
}

/// Asserts that the chain of a plan's report leads to its period.
fn chain_sets_period(rt: &impl Abort, alloc: Global, count: u32, text: &[u8]) -> Result<(), Fail> {
    let checked = compiled(alloc, count, text)?;
    let period = checked.plan().period();
    let report = report_text(alloc, &checked, &[])?;
    let report = str::from_utf8(&report).ok().ok_or("it is ASCII")?;
    let line = format!(in alloc; "\nchain {period}\n")?;
    assert!(rt; report.contains(line.as_str()), "{count}: {period}");
    Ok(())
}

/// Asserts that a plan has no period below either bound, and that the one for shortest wires is the greater.
fn keeps_bounds(rt: &impl Abort, alloc: Global, count: u32, text: &[u8]) -> Result<(), Fail> {
    let checked = compiled(alloc, count, text)?;
    let [any, short] = bounds_on(
        alloc,
        checked.ordered(),
        checked.board(),
        checked.plan().chip_of(),
    )?;
    let period = checked.plan().period();
    assert!(rt;
        1 <= any && any <= short && short <= period,
        "{count}: {any} {short} {period}"
    );
    Ok(())
}

/// Generated designs of 1 to 500 cells.
#[test]
fn periods_of_plans_are_not_below_their_bounds(rt: HostRuntime) -> Result<(), Fail> {
    for count in [1u32, 2, 3, 8, 31, 100, 500] {
        keeps_bounds(&rt, rt.alloc(), count, RING)?;
        keeps_bounds(&rt, rt.alloc(), count, SHORTCUT)?;
    }
    Ok(())
}

/// The same designs: what the chain of a report ends with is what the period waits for.
#[test]
fn chains_of_plans_lead_to_their_periods(rt: HostRuntime) -> Result<(), Fail> {
    for count in [1u32, 2, 3, 8, 31, 100, 500] {
        chain_sets_period(&rt, rt.alloc(), count, RING)?;
        chain_sets_period(&rt, rt.alloc(), count, SHORTCUT)?;
    }
    Ok(())
}

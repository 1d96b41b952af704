//! The command `plan`: good plans, which `check` accepts, and designs that have no room.
use crate::checks::CHECK;
use std::alloc::{AllocError, Global};
use std::process::Abort;
use std::test::Fail;
use vw_sample_calls::{Call, End, Fault, MOST, Ran, carried_out, faults_end, has_ended, words_end};
use vw_samples::{FIVE_GATES, FOUR_CELLS, FOUR_GATES, TOGGLE, TOGGLE_PLAN, TRIANGLE, push_form};

/// The words of a plan, over the files d and b.
const PLAN: &[&str] = &["plan", "d", "b"];

/// How a plan of a design on a board ends.
fn planned(alloc: Global, design: &str, board: &str) -> Result<Ran, AllocError> {
    let call = Call {
        words: PLAN,
        texts: &[("d", design), ("b", board)],
        most: MOST,
        fault: Fault::None,
    };
    carried_out(alloc, &call)
}

/// How `check` ends on a plan that `plan` wrote.
fn checked(alloc: Global, design: &str, board: &str, plan: &[u8]) -> Result<Ran, Fail> {
    let plan = str::from_utf8(plan).ok().ok_or("it is ASCII")?;
    let call = Call {
        words: CHECK,
        texts: &[("d", design), ("b", board), ("p", plan)],
        most: MOST,
        fault: Fault::None,
    };
    Ok(carried_out(alloc, &call)?)
}

/// How `check` ends on what `plan` writes.
fn planned_and_checked(alloc: Global, design: &str, board: &str) -> Result<Ran, Fail> {
    let planned = planned(alloc, design, board)?;
    checked(alloc, design, board, planned.out.bytes())
}

/// Asserts that `check` accepts what `plan` writes.
fn plan_is_sound(rt: &impl Abort, alloc: Global, design: &str, board: &str) -> Result<(), Fail> {
    let ran = planned_and_checked(alloc, design, board)?;
    assert_eq!(rt; ran.status, 0);
    Ok(())
}

/// Asserts that `check` accepts what `plan` writes for a design on a board, with its line.
fn plans_are_sound(alloc: Global, table: &[(&str, &str, &str)]) -> Result<(), Fail> {
    for (design, board, line) in table {
        let ran = planned_and_checked(alloc, design, board)?;
        let end = End::done(line);
        has_ended(&ran, design, end)?;
    }
    Ok(())
}

#[test]
fn plans_are_sound_and_short(rt: HostRuntime) -> Result<(), Fail> {
    const TABLE: &[(&str, &str, &str)] = &[
        // by hand: the input and the latch are sent in microcycle 0, and the gate behind them
        (TOGGLE, TRIANGLE, "sound 4 4 2\n"),
        // both inputs over one link, one after the other; each output is sent as soon as its own input is there
        (
            ".model m\n.inputs a b\n.outputs y z\n.names a y\n1 1\n.names b z\n1 1\n.end\n",
            "board 1\nchips 1\ncells 2\nsettle 0\npins 2\nlink 0 1 1\nlink 1 0 1\n",
            "sound 4 4 3\n",
        ),
        // with two pins a link, both at once
        (
            ".model m\n.inputs a b\n.outputs y z\n.names a y\n1 1\n.names b z\n1 1\n.end\n",
            "board 1\nchips 1\ncells 2\nsettle 0\npins 4\nlink 0 1 2\nlink 1 0 2\n",
            "sound 4 4 2\n",
        ),
        // a gate takes three microcycles to settle
        (
            ".model m\n.inputs a\n.outputs y\n.names a y\n1 1\n.end\n",
            "board 1\nchips 1\ncells 1\nsettle 3\npins 2\nlink 0 1 1\nlink 1 0 1\n",
            "sound 2 2 5\n",
        ),
    ];
    plans_are_sound(rt.alloc(), TABLE)
}

/// The same plan with the two chips exchanged.
const MIRRORED_PLAN: &str =
    "plan 1 2 4 2\nchips 2 1\nwire 0 2 1\nhop 0 2 0 0\nwire 1 1 1\nhop 2 1 0 1\nwire 2 0 1\nhop 1 0 0 0\nwire 2 2 1\nhop 1 2 0 0\nend\n";

#[test]
fn the_toggle_has_the_plan_made_by_hand_or_its_mirror(rt: HostRuntime) -> Result<(), Fail> {
    let ran = planned(rt.alloc(), TOGGLE, TRIANGLE)?;
    let text = ran.out.bytes();
    let is_one = text == TOGGLE_PLAN.as_bytes() || text == MIRRORED_PLAN.as_bytes();
    assert_eq!(rt; is_one, true);
    assert_eq!(rt; ran.status, 0);
    Ok(())
}

#[test]
fn a_design_without_cells_has_an_empty_plan(rt: HostRuntime) -> Result<(), Fail> {
    const TEXTS: &[(&str, &str)] = &[("d", ".model m\n"), ("b", TRIANGLE)];
    const TABLE: &[(&[&str], u8, &str, &str)] = &[(PLAN, 0, "plan 1 0 0 1\nchips\nend\n", "")];
    words_end(rt.alloc(), TEXTS, TABLE)
}

#[test]
fn designs_that_have_no_room_are_refused(rt: HostRuntime) -> Result<(), Fail> {
    const TEXTS: &[(&str, &str)] = &[("d", FIVE_GATES), ("b", FOUR_CELLS)];
    const TABLE: &[(&[&str], u8, &str, &str)] = &[(PLAN, 6, "", "fit: 5 cells, room for 4\n")];
    words_end(rt.alloc(), TEXTS, TABLE)?;
    plan_is_sound(&rt, rt.alloc(), FOUR_GATES, FOUR_CELLS)
}

/// A mesh of 4 by 4 chips behind the host, which is linked to each, with 32 cells a chip.
fn mesh(alloc: Global) -> Result<String, AllocError> {
    let mut text = String::from_str(alloc, "board 1\nchips 16\ncells 32\nsettle 1\npins 64\n")?;
    for from in 0u32..17 {
        for to in 0u32..17 {
            if are_linked(from, to) {
                push_form(&mut text, "link # ~ 2\n", from, to)?;
            }
        }
    }
    Ok(text)
}

/// Whether two nodes of the mesh are linked; the chips stand by rows, from 1.
fn are_linked(from: u32, to: u32) -> bool {
    if from == to {
        return false;
    }
    if from == 0 || to == 0 {
        return true;
    }
    let less = u64::from(from.min(to));
    let more = u64::from(from.max(to));
    more == less + 4 || (more == less + 1 && less % 4 != 0)
}

/// So many cells: gates that read near nets before them, and latches between them.
fn near_reads(alloc: Global, cells: u32) -> Result<String, AllocError> {
    let mut text = String::from_str(alloc, ".model m\n.inputs n0 n1 n2 n3\n")?;
    push_form(&mut text, ".outputs n#\n", cells, 0)?;
    for cell in 0u32..cells {
        let form = if cell % 7 == 6 {
            ".latch n# n+ 0\n"
        } else {
            ".names n# n~ n+\n10 1\n01 1\n"
        };
        push_form(&mut text, form, cell.saturating_add(3), cell | 1)?;
    }
    text.push_str(".end\n")?;
    Ok(text)
}

#[test]
fn five_hundred_cells_are_planned_on_a_mesh(rt: HostRuntime) -> Result<(), Fail> {
    let design = near_reads(rt.alloc(), 500)?;
    let board = mesh(rt.alloc())?;
    let ran = planned_and_checked(rt.alloc(), design.as_str(), board.as_str())?;
    assert_eq!(rt; ran.status, 0);
    Ok(())
}

/// A ring of 4 chips behind the host, which is linked to each, with 16 cells a chip. Its links have delays that are
/// drawn from a seed.
fn delayed_ring(alloc: Global, seed: u32) -> Result<String, AllocError> {
    let mut text = String::from_str(alloc, "board 2\nchips 4\ncells 16\nsettle 1\npins 64\n")?;
    let mut draw = seed;
    for from in 0u32..5 {
        for to in 0u32..5 {
            if from != to && are_near(from, to) {
                draw = draw.wrapping_mul(1_664_525).wrapping_add(1_013_904_223);
                push_form(&mut text, "link # ~ 1 ", from, to)?;
                push_form(&mut text, "#\n", (draw >> 28).saturating_add(1), 0)?;
            }
        }
    }
    Ok(text)
}

/// Whether two nodes of the ring are linked: those that don't lie across from each other.
fn are_near(from: u32, to: u32) -> bool {
    from == 0 || to == 0 || from.abs_diff(to) != 2
}

#[test]
fn plans_on_boards_of_drawn_delays_are_sound(rt: HostRuntime) -> Result<(), Fail> {
    let design = near_reads(rt.alloc(), 48)?;
    for seed in 1u32..7 {
        let board = delayed_ring(rt.alloc(), seed)?;
        let ran = planned_and_checked(rt.alloc(), design.as_str(), board.as_str())?;
        assert_eq!(rt; ran.status, 0);
    }
    Ok(())
}

#[test]
fn what_stops_a_plan_is_named(rt: HostRuntime) -> Result<(), Fail> {
    const BAD_DESIGN: &[(&str, &str)] = &[("d", ".model"), ("b", TRIANGLE)];
    const DESIGN_TOLD: &[(&[&str], u8, &str, &str)] = &[(
        PLAN,
        1,
        "",
        "design 4: line 1: wrong number of words\n",
    )];
    const BAD_BOARD: &[(&str, &str)] = &[("d", TOGGLE), ("b", "board 3\n")];
    const BOARD_TOLD: &[(&[&str], u8, &str, &str)] = &[(
        PLAN,
        3,
        "",
        "board 3: line 1: bad number\n",
    )];
    const TEXTS: &[(&str, &str)] = &[("d", TOGGLE), ("b", TRIANGLE)];
    const FAULTS: &[(u32, Fault, u8, &str, &str)] = &[
        (MOST, Fault::Read(1), 7, "", "read fault: design\n"),
        (MOST, Fault::Write(1), 8, "", "write fault\n"),
    ];
    words_end(rt.alloc(), BAD_DESIGN, DESIGN_TOLD)?;
    words_end(rt.alloc(), BAD_BOARD, BOARD_TOLD)?;
    faults_end(rt.alloc(), PLAN, TEXTS, FAULTS)
}

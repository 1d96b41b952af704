//! Emitted boards.
use crate::boards::{SLOW, emitted};
use crate::traces::last_outputs;
use std::alloc::Global;
use std::process::Abort;
use std::test::Fail;
use vw_example::simulate;
use vw_samples::{EMITTED_AND, EMITTED_TOGGLE, LONG_PLAN, PLANNED_AND, PLANNED_TOGGLE, Texts};

/// Asserts what was found.
fn are_found(rt: &impl Abort, found: &[u8], wanted: &[u8]) {
    assert_eq!(rt; found, wanted);
}

/// Asserts the text of an emitted board.
fn text_is(rt: &impl Abort, alloc: Global, texts: &Texts, wanted: &[u8]) -> Result<(), Fail> {
    let text = emitted(alloc, texts)?;
    are_found(rt, &text, wanted);
    Ok(())
}

/// Asserts the outputs of an emitted board at the last of each so many clocks.
fn outputs_are(
    rt: &impl Abort,
    alloc: Global,
    texts: &Texts,
    stimulus: &[u8],
    group: usize,
    wanted: &[u8],
) -> Result<(), Fail> {
    let text = emitted(alloc, texts)?;
    let simulated = simulate(alloc, text, stimulus.to_vec(alloc)?)?;
    are_found(rt, &simulated.err, b"");
    let outputs = last_outputs(alloc, &simulated.out, group)?;
    are_found(rt, &outputs, wanted);
    Ok(())
}

#[test]
fn a_shared_pin_has_a_choice_for_each_hop(rt: HostRuntime) -> Result<(), Fail> {
    text_is(&rt, rt.alloc(), &PLANNED_AND, EMITTED_AND.as_bytes())
}

#[test]
fn a_latch_takes_its_value_in_the_last_microcycle(rt: HostRuntime) -> Result<(), Fail> {
    text_is(&rt, rt.alloc(), &PLANNED_TOGGLE, EMITTED_TOGGLE.as_bytes())
}

#[test]
fn too_many_cells_are_counted(rt: HostRuntime) -> Result<(), Fail> {
    let long = Texts {
        plan: LONG_PLAN,
        ..PLANNED_TOGGLE
    };
    text_is(&rt, rt.alloc(), &long, b"120023 cells")
}

#[test]
fn a_shared_pin_behaves_as_two_wires(rt: HostRuntime) -> Result<(), Fail> {
    outputs_are(
        &rt,
        rt.alloc(),
        &PLANNED_AND,
        b"11\nhold 3\n01\nhold 3\n",
        4,
        b"1\n0\n",
    )
}

#[test]
fn the_toggle_behaves_as_itself(rt: HostRuntime) -> Result<(), Fail> {
    outputs_are(
        &rt,
        rt.alloc(),
        &PLANNED_TOGGLE,
        b"1\nhold 5\n0\nhold 2\n",
        3,
        b"00\n11\n00\n",
    )
}

#[test]
fn bits_under_way_arrive_as_late_as_the_board_says(rt: HostRuntime) -> Result<(), Fail> {
    outputs_are(
        &rt,
        rt.alloc(),
        &SLOW,
        b"0\nhold 23\n",
        6,
        b"10010\n00000\n10010\n00000\n",
    )
}

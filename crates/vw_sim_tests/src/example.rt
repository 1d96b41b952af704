//! The example of a caller.
use std::alloc::Global;
use std::test::Fail;
use vw_example::simulate;
use vw_sample_calls::{End, are_found, is_status};
use vw_samples::{TOGGLE, TOGGLE_ROWS, TOGGLE_TRACE};

/// Asserts how the simulation of a toggle over a stimulus ends.
fn toggle_ends(alloc: Global, stimulus: &str, end: End) -> Result<(), Fail> {
    let design = TOGGLE.as_bytes().to_vec(alloc)?;
    let simulated = simulate(alloc, design, stimulus.as_bytes().to_vec(alloc)?)?;
    are_found(&simulated.err, end.err.as_bytes(), stimulus)?;
    are_found(&simulated.out, end.out.as_bytes(), stimulus)?;
    is_status(simulated.status, end.status, stimulus)
}

#[test]
fn a_caller_simulates_a_toggle(rt: HostRuntime) -> Result<(), Fail> {
    let end = End::done(TOGGLE_TRACE);
    toggle_ends(rt.alloc(), TOGGLE_ROWS, end)
}

#[test]
fn a_caller_gets_the_message_of_a_bad_stimulus(rt: HostRuntime) -> Result<(), Fail> {
    let end = End::refused(5, "stimulus 3: line 1: found 2 bits, wanted 1\n");
    toggle_ends(rt.alloc(), "10\n", end)
}

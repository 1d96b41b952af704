//! Worlds after lists of events.
use std::alloc::{AllocError, Global};
use std::process::Abort;
use std::test::Fail;
use vw_net::{Bits, Rows};
use vw_prog::{Job, Programs};
use vw_samples::{PLANNED_FAR_FLIP, PLANNED_FLIP, PLANNED_TOGGLE, Texts, job_of};
use vw_world::World;

/// The clock and the count of actions of each node, and then the number of words on each link, of no more than eight of each.
fn numbers_of(alloc: Global, world: &World<'_>) -> Result<Vec<u64>, AllocError> {
    let mut numbers = Vec::new(alloc);
    for node in 0..8 {
        if (node as usize) < world.nodes() {
            numbers.push(world.clock(node))?;
            numbers.push(world.made(node))?;
        }
    }
    for link in 0..8 {
        if (link as usize) < world.links() {
            numbers.push(u64::from(world.held(link)))?;
        }
    }
    Ok(numbers)
}

/// Puts the bits of rows behind others.
fn add_rows(rows: &Rows, bits: &mut Vec<bool>) -> Result<(), AllocError> {
    for place in 0..rows.len() {
        bits.extend_from_slice(rows.row(place))?;
    }
    Ok(())
}

/// The outputs of each clock, the latch values of each clock, and those after the last.
fn bits_of(alloc: Global, world: World<'_>) -> Result<Vec<bool>, AllocError> {
    let mut world = world;
    world.finish();
    let answer = world.into_answer();
    let mut bits = Vec::new(alloc);
    add_rows(answer.outputs(), &mut bits)?;
    add_rows(answer.latches(), &mut bits)?;
    bits.extend_from_slice(answer.last().as_slice())?;
    Ok(bits)
}

/// Asserts the positions and the links after some events, and what the job comes to when it is finished from there.
fn is_after(
    rt: &impl Abort,
    alloc: Global,
    job: &Job,
    events: &[u32],
    numbers: &[u64],
    bits: &[bool],
) -> Result<(), Fail> {
    let programs = Programs::build(alloc, job.checked())?;
    let mut world = World::make(alloc, &programs, job)?;
    world.play(events);
    let found = numbers_of(alloc, &world)?;
    assert_eq!(rt; found.as_slice(), numbers, "{events:?}");
    let came_to = bits_of(alloc, world)?;
    assert_eq!(rt; came_to.as_slice(), bits, "{events:?}");
    Ok(())
}

/// The rows of the toggle, and what it comes to in three clocks: the outputs, the latch before each step, and after the last.
const TOGGLE_ROWS: &[&[bool]] = &[&[true], &[true], &[false]];

const TOGGLED: &[bool] = &[false, true, false, false, true, false, false];

/// Lists of events, the clock and count of nodes 0, 1 and 2, and the words on links 0 to 5. In one clock node 0 has three actions,
/// node 1 has five and node 2 has four. In the third list the last event finds link 0 full; in the last, 9 is no node.
const PLAYS: &[(&[u32], &[u64])] = &[
    (&[], &[0, 0, 0, 0, 0, 0, 0, 0, 0, 0, 0, 0]),
    (&[0, 0, 0], &[0, 1, 0, 0, 0, 0, 1, 0, 0, 0, 0, 0]),
    (&[0, 2, 2, 0, 0, 0], &[1, 0, 0, 0, 0, 2, 1, 0, 0, 0, 0, 1]),
    (&[9, 1, 1], &[0, 0, 0, 0, 0, 0, 0, 0, 0, 0, 0, 0]),
];

#[test]
fn each_list_of_events_leads_to_its_world(rt: HostRuntime) -> Result<(), Fail> {
    let job = job_of(rt.alloc(), &PLANNED_TOGGLE, TOGGLE_ROWS)?;
    for (events, numbers) in PLAYS {
        is_after(&rt, rt.alloc(), &job, events, numbers, TOGGLED)?;
    }
    Ok(())
}

/// Four clocks of a design without inputs.
const FOUR_CLOCKS: &[&[bool]] = &[&[], &[], &[], &[]];

const FLIPPED: &[bool] = &[false, true, false, true, false, true, false, true, false];

/// A hundred events of one node, and then of another.
fn hundred_of_each(alloc: Global, first: u32, second: u32) -> Result<Vec<u32>, AllocError> {
    let mut events = Vec::new(alloc);
    for number in 0..200 {
        events.push(if number < 100 { first } else { second })?;
    }
    Ok(events)
}

/// Asserts what a turned latch comes to, where two nodes have had all their turns before the others.
fn is_flipped(
    rt: &impl Abort,
    alloc: Global,
    texts: &Texts,
    first: u32,
    second: u32,
    numbers: &[u64],
) -> Result<(), Fail> {
    let job = job_of(alloc, texts, FOUR_CLOCKS)?;
    let events = hundred_of_each(alloc, first, second)?;
    is_after(rt, alloc, &job, &events, numbers, FLIPPED)
}

/// Neither the host nor chip 1 can do anything before chip 2 has sent a word.
#[test]
fn nodes_that_wait_for_a_word_stay_where_they_are(rt: HostRuntime) -> Result<(), Fail> {
    const NONE: &[u64] = &[0, 0, 0, 0, 0, 0, 0, 0, 0, 0];
    is_flipped(&rt, rt.alloc(), &PLANNED_FLIP, 0, 1, NONE)?;
    is_flipped(&rt, rt.alloc(), &PLANNED_FAR_FLIP, 0, 1, NONE)
}

/// Chip 2 is as far ahead as its link has room for, one word where a bit takes one microcycle, and three where it takes three. It has
/// worked out its gate in the clock in which the next word is refused.
#[test]
fn a_link_holds_a_word_for_each_microcycle_that_a_bit_takes(rt: HostRuntime) -> Result<(), Fail> {
    const ONE: &[u64] = &[0, 0, 0, 0, 1, 1, 0, 0, 0, 1];
    const THREE: &[u64] = &[0, 0, 0, 0, 3, 1, 0, 0, 0, 3];
    is_flipped(&rt, rt.alloc(), &PLANNED_FLIP, 2, 2, ONE)?;
    is_flipped(&rt, rt.alloc(), &PLANNED_FAR_FLIP, 2, 2, THREE)
}

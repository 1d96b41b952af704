use crate::plans::{is_plan, plan_of};
use crate::same::{are_bytes, is_count};
use std::alloc::{AllocError, Global};
use std::process::Abort;
use std::test::Fail;
use vw_plan::Plan;
use vw_plantext::{PlanTextFault, print, read};

const TPLAN: &[u8] =
    b"plan 1 2 4 2\nchips 1 2\nwire 0 1 1\nhop 0 1 0 0\nwire 1 2 1\nhop 1 2 0 1\nwire 2 0 1\nhop 2 0 0 0\nwire 2 1 1\nhop 2 1 0 0\nend\n";

/// What reading a text answers: the text that the plan is printed as, or the message of the fault.
fn again(alloc: Global, text: &[u8]) -> Result<Vec<u8>, AllocError> {
    match read(alloc, text) {
        Ok(plan) => print(alloc, &plan),
        Err(fault) => fault.text(alloc),
    }
}

/// Asserts what reading a text answers.
fn is_again(rt: &impl Abort, alloc: Global, text: &[u8], wanted: &[u8]) -> Result<(), AllocError> {
    let found = again(alloc, text)?;
    are_bytes(rt, &found, wanted, text);
    Ok(())
}

/// Asserts which line of a text is bad.
fn is_bad_line(rt: &impl Abort, alloc: Global, text: &[u8], line: usize) -> Result<(), AllocError> {
    let message = format!(in alloc; "plan 2: line {line}\n")?;
    is_again(rt, alloc, text, message.as_bytes())
}

/// The numbers of the hops of that plan, and its period.
const TNUMBERS: &[u64] = &[
    0, 1, 0, 1, 0, 0, 1, 2, 1, 2, 0, 1, 2, 0, 2, 0, 0, 0, 2, 1, 2, 1, 0, 0, 2,
];

#[test]
fn a_plan_is_read_as_it_stands(rt: HostRuntime) -> Result<(), Fail> {
    let plan = plan_of(rt.alloc(), TPLAN)?;
    is_plan(&rt, rt.alloc(), &plan, &[1, 2], 4, TNUMBERS)?;
    Ok(())
}

/// Texts of plans.
const PLANS: &[&[u8]] = &[
    TPLAN,
    b"plan 1 0 0 1\nchips\nend\n",
    // the greatest numbers of each kind
    b"plan 1 1 1 4611686018427387904\nchips 4294967295\nwire 4294967295 4294967295 1\nhop 4294967295 4294967295 4294967295 4611686018427387904\nend\n",
    // wires without hops, with several, and twice the same
    b"plan 1 0 4 0\nchips\nwire 7 1 0\nwire 7 1 3\nhop 0 1 0 5\nhop 0 1 0 5\nhop 9 9 9 0\nwire 7 1 0\nwire 0 0 0\nend\n",
    b"plan 1 3 0 0\nchips 0 10 200\nend\n",
];

/// Asserts that each text is read and printed as it stands.
fn are_read_back(rt: &impl Abort, alloc: Global, texts: &[&[u8]]) -> Result<(), AllocError> {
    for text in texts {
        is_again(rt, alloc, text, text)?;
    }
    Ok(())
}

#[test]
fn plans_are_printed_and_read_back(rt: HostRuntime) -> Result<(), Fail> {
    Ok(are_read_back(&rt, rt.alloc(), PLANS)?)
}

/// Asserts that each front of a text that misses its last byte is refused at its next line, and answers the line behind
/// the text.
fn fronts_are_refused(rt: &impl Abort, alloc: Global, text: &[u8]) -> Result<usize, AllocError> {
    let mut line = 1;
    for (size, byte) in text.iter().enumerate() {
        is_bad_line(rt, alloc, &text[..size], line)?;
        if *byte == b'\n' && line < 1000 {
            line += 1;
        }
    }
    Ok(line)
}

#[test]
fn each_front_of_a_plan_is_refused_at_its_next_line(rt: HostRuntime) -> Result<(), Fail> {
    let line = fronts_are_refused(&rt, rt.alloc(), TPLAN)?;
    is_count(&rt, line, 12);
    Ok(())
}

/// Texts, and the first line of each that cannot stand.
const BAD: &[(&[u8], usize)] = &[
    (b"", 1),
    (b"\n", 1),
    (b"end\n", 1),
    (b"plan 2 0 0 0\nchips\nend\n", 1),
    (b"plan 1 0 0\nchips\nend\n", 1),
    (b"plan 1 0 0 0 0\nchips\nend\n", 1),
    (b"plan 1 0 0 00\nchips\nend\n", 1),
    (b"plan  1 0 0 0\nchips\nend\n", 1),
    (b" plan 1 0 0 0\nchips\nend\n", 1),
    (b"plan 1 0 0 0 \nchips\nend\n", 1),
    (b"plan 1 0 0 0\r\nchips\nend\n", 1),
    (b"plan 1 4294967296 0 0\nchips\nend\n", 1),
    (b"plan 1 0 4294967296 0\nchips\nend\n", 1),
    (b"plan 1 0 0 4611686018427387905\nchips\nend\n", 1),
    // a number of 30 digits isn't cut
    (
        b"plan 1 0 0 100000000000000000000000000000\nchips\nend\n",
        1,
    ),
    (b"plan 1 0 0 18446744073709551617\nchips\nend\n", 1),
    (b"plan 1 1 0 0\nchips\nend\n", 2),
    (b"plan 1 1 0 0\nchips 1 1\nend\n", 2),
    (b"plan 1 1 0 0\nchips 01\nend\n", 2),
    (b"plan 1 1 0 0\nchips 4294967296\nend\n", 2),
    (b"plan 1 0 0 0\nchips \nend\n", 2),
    (b"plan 1 0 0 0\n\nchips\nend\n", 2),
    (b"plan 1 0 0 0\nchips\nwire 0 0 0\nend\n", 3),
    (b"plan 1 0 1 0\nchips\nend\n", 3),
    (b"plan 1 0 1 0\nchips\nwire 0 0 1\nend\n", 4),
    (b"plan 1 0 1 0\nchips\nwire 0 0 0\nhop 0 0 0 0\nend\n", 4),
    (b"plan 1 0 1 0\nchips\nwire 4294967296 0 0\nend\n", 3),
    (b"plan 1 0 1 0\nchips\nwire 0 4294967296 0\nend\n", 3),
    // fewer than 2 ^ 30 hops in all, however few are there
    (b"plan 1 0 2 0\nchips\nwire 0 0 1073741824\n", 3),
    (b"plan 1 0 2 0\nchips\nwire 0 0 1073741823\n", 4),
    (
        b"plan 1 0 2 0\nchips\nwire 0 0 1\nhop 0 0 0 0\nwire 0 0 1073741823\n",
        5,
    ),
    (
        b"plan 1 0 1 0\nchips\nwire 0 0 1\nhop 0 0 0 4611686018427387905\nend\n",
        4,
    ),
    (
        b"plan 1 0 1 0\nchips\nwire 0 0 1\nhop 4294967296 0 0 0\nend\n",
        4,
    ),
    (
        b"plan 1 0 1 0\nchips\nwire 0 0 1\nhop 0 4294967296 0 0\nend\n",
        4,
    ),
    (
        b"plan 1 0 1 0\nchips\nwire 0 0 1\nhop 0 0 4294967296 0\nend\n",
        4,
    ),
    // the greatest counts can stand on the first line
    (b"plan 1 4294967295 0 0\nchips\nend\n", 2),
    (b"plan 1 0 4294967295 0\nchips\nend\n", 3),
    (b"plan 1 0 0 0\nchips\nend", 3),
    (b"plan 1 0 0 0\nchips\nend\n\n", 4),
];

/// Asserts which line of each text is bad.
fn are_bad_lines(
    rt: &impl Abort,
    alloc: Global,
    table: &[(&[u8], usize)],
) -> Result<(), AllocError> {
    for (text, line) in table {
        is_bad_line(rt, alloc, text, *line)?;
    }
    Ok(())
}

#[test]
fn the_first_line_that_cannot_stand_is_named(rt: HostRuntime) -> Result<(), Fail> {
    Ok(are_bad_lines(&rt, rt.alloc(), BAD)?)
}

/// Asserts the message of a fault.
fn is_message(
    rt: &impl Abort,
    alloc: Global,
    fault: &PlanTextFault,
    wanted: &[u8],
) -> Result<(), AllocError> {
    let found = fault.text(alloc)?;
    are_bytes(rt, &found, wanted, b"a message");
    Ok(())
}

/// The message for a text that is too long.
const TOO_LARGE: &[u8] = b"plan 1: text longer than 67108864 bytes\n";

#[test]
fn messages_are_exact(rt: HostRuntime) -> Result<(), Fail> {
    is_message(&rt, rt.alloc(), &PlanTextFault::TooLarge, TOO_LARGE)?;
    is_message(
        &rt,
        rt.alloc(),
        &PlanTextFault::BadLine(11),
        b"plan 2: line 11\n",
    )?;
    is_message(
        &rt,
        rt.alloc(),
        &PlanTextFault::NoMemory,
        b"out of memory\n",
    )?;
    Ok(())
}

/// A plan with a line of chips that fills the text: each chip takes two bytes.
fn long_plan(alloc: Global) -> Result<Vec<u8>, AllocError> {
    let mut text = b"plan 1 33554413 0 0\nchips".to_vec(alloc)?;
    for _ in 0..33_554_413 {
        text.extend_from_slice(b" 7")?;
    }
    text.extend_from_slice(b"\nend\n")?;
    Ok(text)
}

/// Whether a plan is printed as this text.
fn is_printed(alloc: Global, plan: &Plan, text: &[u8]) -> Result<bool, AllocError> {
    let printed = print(alloc, plan)?;
    Ok(printed.as_slice() == text)
}

/// Asserts that a text has so many chips, and that its plan is printed as it stands.
fn has_chips(rt: &impl Abort, alloc: Global, text: &[u8], chips: usize) -> Result<(), Fail> {
    let plan = plan_of(alloc, text)?;
    is_count(rt, plan.chip_of().len(), chips);
    let printed = is_printed(alloc, &plan, text)?;
    assert!(rt; printed);
    Ok(())
}

#[test]
fn texts_up_to_the_limit_are_read(rt: HostRuntime) -> Result<(), Fail> {
    let mut text = long_plan(rt.alloc())?;
    is_count(&rt, text.len(), 67_108_856);
    has_chips(&rt, rt.alloc(), &text, 33_554_413)?;
    // nine bytes more are one too many
    text.extend_from_slice(b"\n\n\n\n\n\n\n\n\n")?;
    is_again(&rt, rt.alloc(), &text, TOO_LARGE)?;
    Ok(())
}

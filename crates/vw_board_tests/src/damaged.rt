//! Plans that end too early.
use crate::checks::CHECK;
use std::alloc::{AllocError, Global};
use std::test::Fail;
use vw_sample_calls::{Call, End, Fault, MOST, call_ends};
use vw_samples::{TOGGLE, TOGGLE_PLAN, TRIANGLE};

/// The first letters of a text, and the number of the line behind its whole lines.
fn front_of(alloc: Global, text: &str, count: u32) -> Result<(String, u32), AllocError> {
    let mut front = String::new(alloc);
    let mut line: u32 = 1;
    let mut seen: u32 = 0;
    for letter in text.chars() {
        if seen >= count {
            break;
        }
        seen = seen.saturating_add(1);
        front.push(letter)?;
        if letter == '\n' {
            line = line.saturating_add(1);
        }
    }
    Ok((front, line))
}

/// Asserts that a check by the first letters of the toggle's plan names the line where they end.
fn front_is_refused(alloc: Global, count: u32) -> Result<(), Fail> {
    let (front, line) = front_of(alloc, TOGGLE_PLAN, count)?;
    let wanted = format!(in alloc; "plan 2: line {line}\n")?;
    let call = Call {
        words: CHECK,
        texts: &[("d", TOGGLE), ("b", TRIANGLE), ("p", front.as_str())],
        most: MOST,
        fault: Fault::None,
    };
    call_ends(
        alloc,
        &call,
        front.as_str(),
        End::refused(4, wanted.as_str()),
    )
}

/// The plan has 119 bytes. Each front of it, but the whole, lacks a line or the end of one.
#[test]
fn each_front_of_a_plan_is_refused_at_the_line_where_it_ends(rt: HostRuntime) -> Result<(), Fail> {
    assert_eq!(rt; TOGGLE_PLAN.len(), 119);
    for count in 0..119u32 {
        front_is_refused(rt.alloc(), count)?;
    }
    Ok(())
}

//! The first two lines of a plan text.
ghost use Rattle.std.specs.Prelude.{◌≡◌, MatchOption, IfOk, IfErr, IfSome, IfNone};
ghost use Rattle.vw_plantext.specs.Steps.Bodies.{body_state};
ghost use Rattle.vw_plantext.specs.Steps.Starts.{IsPlanHead, IsNoHead, IsHeadLine, IsNoHeadLine, AreChips, AreNoChips, IsChipsLine, IsNoChipsLine, IsReadTo, IsFaultOfText};

use crate::body::Body;
use crate::fault::PlanTextFault;
use crate::line::{next_line, read_numbers};
use std::alloc::{AllocError, Global};

/// The numbers of cells and wires, and the period.
#[derive(Clone, Copy)]
pub struct PlanHead {
    pub cells: u64,
    pub wires: u64,
    pub period: u64,
}

/// The head of numbers, where they are in their ranges.
fn head_of(numbers: &[u64]) -> Option<PlanHead>
    ensures { MatchOption result (IsNoHead numbers.now) (IsPlanHead numbers.now) }
{
    let [1, cells, wires, period] = numbers else {
        return None;
    };
    if *cells > u64::from(u32::MAX) || *wires > u64::from(u32::MAX) || *period > 1 << 62 {
        return None;
    }
    Some(PlanHead {
        cells: *cells,
        wires: *wires,
        period: *period,
    })
}

/// The head of a line.
fn read_head(line: &[u8], numbers: &mut Vec<u64>) -> Result<Option<PlanHead>, AllocError>
    ensures { IfOk result (λ head. MatchOption head
        (IsNoHeadLine line.now) (IsHeadLine line.now)) }
{
    if !read_numbers(line, b"plan", numbers)? {
        return Ok(None);
    }
    Ok(head_of(numbers))
}

/// The chips of numbers, where there is one for each cell, and all are in their range.
pub fn chips_in(alloc: Global, numbers: &[u64], cells: u64) -> Result<Option<Vec<u32>>, AllocError>
    ensures { IfOk result (λ chips. MatchOption chips (AreNoChips cells numbers.now)
        (λ chips. AreChips cells numbers.now chips.items)) }
{
    if numbers.len() as u64 != cells {
        return Ok(None);
    }
    let mut chips = Vec::new(alloc);
    for number in numbers {
        let Ok(chip) = u32::try_from(*number) else {
            return Ok(None);
        };
        chips.push(chip)?;
    }
    Ok(Some(chips))
}

/// The chips of a line.
fn read_chips(
    alloc: Global,
    line: &[u8],
    cells: u64,
    numbers: &mut Vec<u64>,
) -> Result<Option<Vec<u32>>, AllocError>
    ensures { IfOk result (λ chips. MatchOption chips (IsNoChipsLine cells line.now)
        (λ chips. IsChipsLine cells line.now chips.items)) }
{
    if !read_numbers(line, b"chips", numbers)? {
        return Ok(None);
    }
    chips_in(alloc, numbers, cells)
}

/// Reads the first two lines of a text: the plan without wires so far, and what stands behind these lines.
pub fn begin<'a>(
    alloc: Global,
    bytes: &'a [u8],
    numbers: &mut Vec<u64>,
) -> Result<(Body, &'a [u8]), PlanTextFault>
    ensures begun { IfOk result (λ parts.
        IsReadTo bytes.now (body_state parts.0) parts.1.now 3) }
    ensures fault { IfErr result (IsFaultOfText bytes.now) }
{
    let Some((line, rest)) = next_line(bytes) else {
        return Err(PlanTextFault::BadLine(1));
    };
    let Some(head) = read_head(line, numbers)? else {
        return Err(PlanTextFault::BadLine(1));
    };
    let Some((line, rest)) = next_line(rest) else {
        return Err(PlanTextFault::BadLine(2));
    };
    let Some(chip_of) = read_chips(alloc, line, head.cells, numbers)? else {
        return Err(PlanTextFault::BadLine(2));
    };
    let body = Body {
        chip_of,
        period: head.period,
        wires: Vec::new(alloc),
        wire: None,
        left: head.wires,
        room: (1 << 30) - 1,
    };
    Ok((body, rest))
}

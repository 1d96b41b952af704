//! Plan texts.
ghost use Rattle.std.specs.Prelude.{◌≡◌, ◌≤◌, ◌<◌, ◌^◌, true, length, IfOk, IfErr};
ghost use Rattle.vw_plantext.specs.Content.{content_of};
ghost use Rattle.vw_plantext.specs.PlanText.{Spells, Refuses};
ghost use Rattle.vw_plantext.specs.Steps.Bodies.{body_state, is_complete, IsBodyInRange};
ghost use Rattle.vw_plantext.specs.Steps.Starts.{IsFaultOfText};
ghost use Rattle.vw_plantext.specs.Steps.Finished.{content_read, EndsPlan, EndsBadly, IsSpelled};

use crate::body::Body;
use crate::fault::PlanTextFault;
use crate::limits::MOST_PLAN_BYTES;
use crate::line::next_line;
use crate::start::begin;
use std::alloc::Global;
use vw_net::Sequence;
use vw_plan::Plan;

/// The plan whose wires were all read.
fn finish(body: Body) -> Plan
    requires fits { IsBodyInRange (body_state body) }
    requires complete { is_complete (body_state body) ≡ true }
    ensures { content_of result ≡ content_read (body_state body) }
{
    let Body {
        chip_of,
        period,
        wires,
        wire: _,
        left: _,
        room: _,
    } = body;
    Plan::make(Sequence::of(chip_of), Sequence::of(wires), period)
}

/// The plan whose wires were all read, where this line, of this number, is the last one.
fn end_of(body: Body, line: &[u8], after: &[u8], number: u64) -> Result<Plan, PlanTextFault>
    requires fits { IsBodyInRange (body_state body) }
    requires complete { is_complete (body_state body) ≡ true }
    requires small { number < 2 ^ 63 }
    ensures ends { IfOk result (EndsPlan (body_state body) line.now after.now) }
    ensures fault { IfErr result (EndsBadly line.now after.now number) }
{
    if line != b"end".as_slice() {
        return Err(PlanTextFault::BadLine(number));
    }
    if !after.is_empty() {
        return Err(PlanTextFault::BadLine(number + 1));
    }
    Ok(finish(body))
}

/// The plan that a text spells, however long the text is.
fn read_lines(alloc: Global, bytes: &[u8]) -> Result<Plan, PlanTextFault>
    requires { length bytes.now ≤ MOST_PLAN_BYTES }
    ensures spelled { IfOk result (IsSpelled bytes.now) }
    ensures fault { IfErr result (IsFaultOfText bytes.now) }
{
    let mut numbers = Vec::new(alloc);
    let (mut body, mut rest) = begin(alloc, bytes, &mut numbers)?;
    let mut number = 3;
    while let Some((line, after)) = next_line(rest) {
        if body.is_complete() {
            return end_of(body, line, after, number);
        }
        let Some(taken) = body.take(alloc, line, &mut numbers)? else {
            return Err(PlanTextFault::BadLine(number));
        };
        body = taken.closed()?;
        rest = after;
        number += 1;
    }
    Err(PlanTextFault::BadLine(number))
}

/// The plan of which a text is the spelling, or the fault of the text. Texts of up to 67,108,864 bytes are read. Whether
/// the chips, nets, nodes and pins exist isn't looked at.
pub fn read(alloc: Global, bytes: &[u8]) -> Result<Plan, PlanTextFault>
    ensures spells { IfOk result (Spells bytes.now) }
    ensures refuses { IfErr result (Refuses bytes.now) }
{
    if bytes.len() > MOST_PLAN_BYTES {
        return Err(PlanTextFault::TooLarge);
    }
    read_lines(alloc, bytes)
}

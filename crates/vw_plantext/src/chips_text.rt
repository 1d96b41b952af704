//! Texts of chips alone.
ghost use Rattle.std.specs.Prelude.{MatchOption, IfOk, IfErr};
ghost use Rattle.vw_plantext.specs.ChipsText.{SpellsChips, RefusesChips};
ghost use Rattle.vw_plantext.specs.Steps.ChipsLines.{IsLineOf, IsNoLine};

use crate::fault::PlanTextFault;
use crate::limits::MOST_PLAN_BYTES;
use crate::line::{next_line, read_numbers};
use crate::start::chips_in;
use std::alloc::{AllocError, Global};
use vw_net::Sequence;

/// The chips of a line, however many cells there are.
fn read_line(alloc: Global, line: &[u8]) -> Result<Option<Vec<u32>>, AllocError>
    ensures { IfOk result (λ chips. MatchOption chips (IsNoLine line.now)
        (λ chips. IsLineOf line.now chips.items)) }
{
    let mut numbers = Vec::new(alloc);
    if !read_numbers(line, b"chips", &mut numbers)? {
        return Ok(None);
    }
    let cells = numbers.len() as u64;
    if cells > u64::from(u32::MAX) {
        return Ok(None);
    }
    chips_in(alloc, &numbers, cells)
}

/// The chips that a text has in its one line, or the fault of the text: the line of chips, or one behind it. Texts of up to
/// 67,108,864 bytes are read. Whether the cells and the chips exist isn't looked at.
pub fn read_chips(alloc: Global, bytes: &[u8]) -> Result<Sequence<u32>, PlanTextFault>
    ensures spells { IfOk result (SpellsChips bytes.now) }
    ensures refuses { IfErr result (RefusesChips bytes.now) }
{
    if bytes.len() > MOST_PLAN_BYTES {
        return Err(PlanTextFault::TooLarge);
    }
    let Some((line, rest)) = next_line(bytes) else {
        return Err(PlanTextFault::BadLine(1));
    };
    let Some(chips) = read_line(alloc, line)? else {
        return Err(PlanTextFault::BadLine(1));
    };
    if !rest.is_empty() {
        return Err(PlanTextFault::BadLine(2));
    }
    Ok(Sequence::of(chips))
}

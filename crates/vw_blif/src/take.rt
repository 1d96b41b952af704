//! A model, line by line.
ghost use Rattle.std.specs.Prelude.{◌≡◌, ◌≢◌, IfErr, OnOk};
ghost use Rattle.vw_blif.specs.Kinds.{kind};
ghost use Rattle.vw_blif.specs.declared.kind.Kind.{Kind};
ghost use Rattle.vw_blif.specs.Steps.Blocks.{TakesLine, RefusesInModel};
ghost use Rattle.vw_blif.specs.Steps.Readers.{SaysOther};

use crate::block::Block;
use crate::copies::{copy, first};
use crate::fault::TextFault;
use crate::kind::Kind;
use bumpalo::Bump;
use std::alloc::Global;
use vw_text::Line;

/// The fault of a line with another word that has a point in front.
fn other_word(alloc: Global, line: &Line) -> TextFault
    ensures { SaysOther line.now result }
{
    match copy(alloc, first(line)) {
        Ok(word) => TextFault::Unsupported(line.number(), word),
        Err(_) => TextFault::NoMemory,
    }
}

/// The model with a line more that is neither its first nor its `.end`.
pub fn take<'a>(
    alloc: Global,
    arena: &'a Bump,
    block: &mut Block<'a>,
    line_is: Kind,
    line: &Line,
) -> Result<(), TextFault>
    requires is { line_is ≡ kind line.now }
    requires no_model { line_is ≢ Kind.Model }
    requires no_end { line_is ≢ Kind.End }
    ensures takes { OnOk result (TakesLine block.old line.now block.new) }
    ensures refuses { IfErr result (RefusesInModel block.old line.now) }
{
    match line_is {
        Kind::Inputs => block.add_inputs(alloc, arena, line),
        Kind::Outputs => block.add_outputs(alloc, arena, line),
        Kind::Clock => block.add_clocks(alloc, arena, line),
        Kind::Names => block.add_table(alloc, line),
        Kind::Latch => block.add_latch(alloc, line),
        Kind::Subckt => block.add_place(alloc, line),
        Kind::Row => block.add_row(alloc, line),
        Kind::Model | Kind::End | Kind::Other => Err(other_word(alloc, line)),
    }
}

//! Which models the models of a design place, by their numbers.
ghost use Rattle.std.specs.Prelude.{IfOk};
ghost use Rattle.vw_design.specs.ModelNumbers.{AreTargets};

use crate::numbers::Numbers;
use std::alloc::{AllocError, Global};
use vw_design::Design;
use vw_net::Sequence;

/// For each model of a design, the numbers of the models that its `.subckt` items name, in order; None where the file
/// has no model of that name. A model's number is its place in the file, from 0.
pub fn targets_of(alloc: Global, design: &Design) -> Result<Vec<Sequence<Option<u32>>>, AllocError>
    ensures { IfOk result (λ targets. AreTargets design.now targets.items) }
{
    let numbers = Numbers::of(alloc, design)?;
    let mut targets = Vec::with_capacity(alloc, design.models().len())?;
    for model in design.models() {
        targets.push(numbers.targets(alloc, model.items())?)?;
    }
    Ok(targets)
}

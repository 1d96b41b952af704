//! The inputs of a model that aren't clocks.
ghost use Rattle.std.specs.Prelude.{◌≡◌, not, filter, length, IfOk};
ghost use Rattle.vw_design.specs.Distinct.{has_name};

use std::alloc::{AllocError, Global};
use vw_design::{Model, WordSet};

/// How many inputs a model has that it doesn't declare as clocks.
pub fn input_count(alloc: Global, model: &Model) -> Result<usize, AllocError>
    ensures { IfOk result (λ count. count
        ≡ length (filter (λ name. not (has_name model.now.clocks name)) model.now.inputs)) }
{
    let mut clocks = WordSet::none(alloc);
    clocks.add_all(model.clocks())?;
    Ok(clocks.count_out(model.inputs()))
}

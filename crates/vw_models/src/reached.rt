//! Which models are reached from the root.
ghost use Rattle.std.specs.Prelude.{IfOk};
ghost use Rattle.vw_design.specs.ModelNumbers.{AreModelsReached};

use crate::placed::Targets;
use crate::reach::reach;
use std::alloc::{AllocError, Global};

/// For each model, whether it is reached: whether it is the root or a reached model places it. Models that the file
/// doesn't have are passed over.
pub fn models_reached(alloc: Global, targets: &Targets) -> Result<Vec<bool>, AllocError>
    ensures { IfOk result (λ flags. AreModelsReached targets.now.design.now flags.items) }
{
    reach(alloc, targets.numbers)
}

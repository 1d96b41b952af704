//! Names of models in a circle.
ghost use Rattle.std.specs.Prelude.{◌≡◌, ◌<◌, length, slice_index, EachIndex, IfOk};
ghost use Rattle.vw_models.specs.Steps.ModelNames.{numbered_names};

use std::alloc::{AllocError, Global};
use vw_design::Design;
use vw_net::Sequence;
use vw_outside::Name;

/// The names of the models of a circle, in order.
pub fn circle_names(
    alloc: Global,
    design: &Design,
    circle: &[u32],
) -> Result<Sequence<Name>, AllocError>
    requires { EachIndex circle.now (λ i. slice_index circle.now i < length design.now.models) }
    ensures { IfOk result (λ names. names ≡ numbered_names design.now circle.now) }
{
    let mut names = Vec::with_capacity(alloc, circle.len())?;
    for number in circle {
        let name = design.models()[*number as usize].name();
        names.push(name.copy(alloc)?)?;
    }
    Ok(Sequence::of(names))
}

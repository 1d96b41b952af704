//! Inputs and clocks of placed models that aren't bound.
ghost use Rattle.std.specs.Prelude.{◌≡◌, option_map, IfOk};
ghost use Rattle.std.specs.List.{AllZip};
ghost use Rattle.vw_design.specs.ModelFaults.{unbound_input, unbound_input_in};
ghost use Rattle.vw_design.specs.ModelNumbers.{AreModelsReached};
ghost use Rattle.vw_models.specs.Steps.PlacedModels.{IsNumberedPlacing, placed_models};
ghost use Rattle.vw_design.specs.Paths.{lent};
ghost use Rattle.vw_models.specs.PlacedFaults.{formal_name};

use crate::formal_at::FormalAt;
use crate::numbered_placing::{NumberedPlacing, placed_models};
use crate::placed::Targets;
use std::alloc::{AllocError, Global};
use vw_design::{Bind, Design, Model, WordSet};
use vw_outside::Name;

/// The first input or clock of a placed model that isn't bound, and the line of the item. Inputs come before clocks. At
/// each item it looks at no more than 2n + 1 ports, where n is the number of bindings.
pub fn unbound_input(
    alloc: Global,
    targets: &Targets,
    flags: &[bool],
) -> Result<Option<FormalAt>, AllocError>
    requires flags { AreModelsReached targets.now.design.now flags.now }
    ensures { IfOk result
        (λ found. option_map formal_name found ≡ unbound_input targets.now.design.now) }
{
    let placed = placed_models(alloc, targets, flags)?;
    first_unbound(alloc, targets.design, placed.as_slice())
}

/// The first at the models that are placed.
fn first_unbound(
    alloc: Global,
    design: &Design,
    placed: &[NumberedPlacing],
) -> Result<Option<FormalAt>, AllocError>
    requires { AllZip (IsNumberedPlacing design.now) (placed_models design.now) placed.now }
    ensures { IfOk result (λ found. option_map formal_name found ≡ unbound_input design.now) }
{
    for numbered in placed {
        let model = &design.models()[numbered.number as usize];
        let found = unbound_of(alloc, model, numbered.binds)?;
        if let Some(formal) = found {
            return Ok(Some(FormalAt {
                line: numbered.line,
                formal: formal.copy(alloc)?,
            }));
        }
    }
    Ok(None)
}

/// The first input or clock of a model that no binding binds.
fn unbound_of<'a>(
    alloc: Global,
    model: &'a Model,
    binds: &[Bind],
) -> Result<Option<&'a Name>, AllocError>
    ensures { IfOk result (λ found. lent found ≡ unbound_input_in model.now binds.now) }
{
    let mut bound = WordSet::none(alloc);
    bound.add_formals(binds)?;
    let input = bound.first_out(model.inputs());
    if input.is_some() {
        return Ok(input);
    }
    Ok(bound.first_out(model.clocks()))
}

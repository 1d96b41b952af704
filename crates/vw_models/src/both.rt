//! Outputs of placed models that are inputs or clocks of them, too.
ghost use Rattle.std.specs.Prelude.{◌≡◌, option_map, IfOk};
ghost use Rattle.std.specs.List.{AllZip};
ghost use Rattle.vw_design.specs.ModelFaults.{port_both_ways};
ghost use Rattle.vw_design.specs.ModelNumbers.{AreModelsReached};
ghost use Rattle.vw_models.specs.Steps.PlacedModels.{IsNumberedPlacing, placed_models};
ghost use Rattle.vw_models.specs.Steps.Formals.{IsBothWays};
ghost use Rattle.vw_models.specs.PlacedFaults.{named_output};

use crate::formals::ports_of_model;
use crate::numbered_placing::{NumberedPlacing, placed_models};
use crate::output_of::OutputOf;
use crate::placed::Targets;
use std::alloc::{AllocError, Global};
use vw_design::{Design, Model};
use vw_outside::Name;

/// The first output of a placed model that is an input or clock of it, too. Each model is looked at once.
pub fn both_ways(
    alloc: Global,
    targets: &Targets,
    flags: &[bool],
) -> Result<Option<OutputOf>, AllocError>
    requires flags { AreModelsReached targets.now.design.now flags.now }
    ensures { IfOk result
        (λ found. option_map named_output found ≡ port_both_ways targets.now.design.now) }
{
    let placed = placed_models(alloc, targets, flags)?;
    let outputs = all_both(alloc, targets.design)?;
    first_both(alloc, targets.design, placed.as_slice(), outputs.as_slice())
}

/// The first at the models that are placed.
fn first_both(
    alloc: Global,
    design: &Design,
    placed: &[NumberedPlacing],
    outputs: &[Option<&Name>],
) -> Result<Option<OutputOf>, AllocError>
    requires placed { AllZip (IsNumberedPlacing design.now) (placed_models design.now) placed.now }
    requires outputs { AllZip IsBothWays design.now.models outputs.now }
    ensures { IfOk result (λ found. option_map named_output found ≡ port_both_ways design.now) }
{
    for numbered in placed {
        let found = outputs[numbered.number as usize];
        if let Some(output) = found {
            let model = &design.models()[numbered.number as usize];
            return Ok(Some(OutputOf {
                model: model.name().copy(alloc)?,
                output: output.copy(alloc)?,
            }));
        }
    }
    Ok(None)
}

/// The first output of a model that is an input or clock of it, too.
fn both_of(alloc: Global, model: &Model) -> Result<Option<&Name>, AllocError>
    ensures { IfOk result (IsBothWays model.now) }
{
    let ports = ports_of_model(alloc, model)?;
    Ok(ports.first_in(model.outputs()))
}

/// That of each model.
fn all_both(alloc: Global, design: &Design) -> Result<Vec<Option<&Name>>, AllocError>
    ensures { IfOk result (λ outputs. AllZip IsBothWays design.now.models outputs.items) }
{
    let mut outputs = Vec::with_capacity(alloc, design.models().len())?;
    for model in design.models() {
        outputs.push(both_of(alloc, model)?)?;
    }
    Ok(outputs)
}

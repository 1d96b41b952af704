//! Bound formals that the placed model doesn't have.
ghost use Rattle.std.specs.Prelude.{◌≡◌, not, find, option_map, IfOk};
ghost use Rattle.std.specs.List.{AllZip};
ghost use Rattle.vw_design.specs.ModelFaults.{unknown_formal};
ghost use Rattle.vw_design.specs.ModelNumbers.{AreModelsReached};
ghost use Rattle.vw_design.specs.WordSets.{has_word};
ghost use Rattle.vw_models.specs.Steps.PlacedModels.{IsNumberedPlacing, placed_models};
ghost use Rattle.vw_models.specs.Steps.Formals.{AreFormals};
ghost use Rattle.vw_design.specs.Paths.{lent};
ghost use Rattle.vw_models.specs.PlacedFaults.{formal_name};

use crate::formal_at::FormalAt;
use crate::formals::all_formals;
use crate::numbered_placing::{NumberedPlacing, placed_models};
use crate::placed::Targets;
use std::alloc::{AllocError, Global};
use vw_design::{Bind, Design, WordSet};
use vw_outside::Name;

/// The first bound formal that is no input, clock or output of the placed model, and the line of the item. A set of the
/// formals is made once a model.
pub fn unknown_formal(
    alloc: Global,
    targets: &Targets,
    flags: &[bool],
) -> Result<Option<FormalAt>, AllocError>
    requires flags { AreModelsReached targets.now.design.now flags.now }
    ensures { IfOk result
        (λ found. option_map formal_name found ≡ unknown_formal targets.now.design.now) }
{
    let placed = placed_models(alloc, targets, flags)?;
    let formals = all_formals(alloc, targets.design)?;
    first_unknown(alloc, targets.design, placed.as_slice(), formals.as_slice())
}

/// The first of the models that are placed.
fn first_unknown(
    alloc: Global,
    design: &Design,
    placed: &[NumberedPlacing],
    formals: &[WordSet],
) -> Result<Option<FormalAt>, AllocError>
    requires placed { AllZip (IsNumberedPlacing design.now) (placed_models design.now) placed.now }
    requires formals { AllZip AreFormals design.now.models formals.now }
    ensures { IfOk result (λ found. option_map formal_name found ≡ unknown_formal design.now) }
{
    for numbered in placed {
        let found = unknown_among(&formals[numbered.number as usize], numbered.binds);
        if let Some(formal) = found {
            return Ok(Some(FormalAt {
                line: numbered.line,
                formal: formal.copy(alloc)?,
            }));
        }
    }
    Ok(None)
}

/// The first formal of some bindings that isn't in a set.
fn unknown_among<'a>(formals: &WordSet, binds: &'a [Bind]) -> Option<&'a Name>
    ensures { lent result ≡ option_map (λ bind. bind.formal)
        (find (λ bind. not (has_word formals.now.words bind.formal)) binds.now) }
{
    for bind in binds {
        if !formals.has(bind.formal().as_slice()) {
            return Some(bind.formal());
        }
    }
    None
}

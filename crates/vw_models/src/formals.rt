//! The formals of models.
ghost use Rattle.std.specs.Prelude.{◌≡◌, IfOk};
ghost use Rattle.std.specs.List.{AllZip};
ghost use Rattle.vw_design.specs.Paths.{Word, is_port};
ghost use Rattle.vw_design.specs.WordSets.{has_word};
ghost use Rattle.vw_models.specs.Steps.Formals.{AreFormals};

use std::alloc::{AllocError, Global};
use vw_design::{Design, Model, WordSet};

/// The inputs and clocks of a model.
pub fn ports_of_model(alloc: Global, model: &Model) -> Result<WordSet<'_>, AllocError>
    ensures { IfOk result (λ ports. (name : Word)
        → has_word ports.words name ≡ is_port model.now name) }
{
    let mut ports = WordSet::none(alloc);
    ports.add_all(model.clocks())?;
    ports.add_all(model.inputs())?;
    Ok(ports)
}

/// The inputs, clocks and outputs of a model.
fn formals_of(alloc: Global, model: &Model) -> Result<WordSet<'_>, AllocError>
    ensures { IfOk result (AreFormals model.now) }
{
    let mut formals = ports_of_model(alloc, model)?;
    formals.add_all(model.outputs())?;
    Ok(formals)
}

/// Those of each model, whether an instance of it is placed or not, so that the work stays linear in the text.
pub fn all_formals(alloc: Global, design: &Design) -> Result<Vec<WordSet<'_>>, AllocError>
    ensures { IfOk result (λ formals. AllZip AreFormals design.now.models formals.items) }
{
    let mut formals = Vec::with_capacity(alloc, design.models().len())?;
    for model in design.models() {
        formals.push(formals_of(alloc, model)?)?;
    }
    Ok(formals)
}

//! The claims of all models.
ghost use Rattle.std.specs.Prelude.{IfOk};
ghost use Rattle.vw_drivers.specs.Tables.{AreModelClaims};

use crate::gather_claims::claims_of;
use crate::model_claims::ModelClaims;
use crate::model_outputs::output_sets;
use std::alloc::{AllocError, Global};
use vw_models::Targets;

/// For each model, the claims on its nets.
pub fn all_claims(alloc: Global, targets: &Targets) -> Result<Vec<ModelClaims>, AllocError>
    ensures { IfOk result (λ claims. AreModelClaims targets.now.design.now claims.items) }
{
    let outputs = output_sets(alloc, targets.design)?;
    let mut claims = Vec::with_capacity(alloc, targets.design.models().len())?;
    for model in 0..targets.design.models().len() {
        claims.push(claims_of(alloc, targets, outputs.as_slice(), model as u32)?)?;
    }
    Ok(claims)
}

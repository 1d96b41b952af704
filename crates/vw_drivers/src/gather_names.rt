//! The names of models by numbers.
ghost use Rattle.std.specs.Prelude.{◌≡◌, length, map, IfOk};
ghost use Rattle.vw_drivers.specs.Firsts.{number_named};
ghost use Rattle.vw_drivers.specs.Names.{AreNames, reads_of};
ghost use Rattle.vw_drivers.specs.Steps.GatheredNames.{placed_from};

use crate::model_claims::ModelClaims;
use crate::model_names::ModelNames;
use crate::placed::items_placed;
use crate::reads::items_reads;
use std::alloc::{AllocError, Global};
use vw_design::Item;
use vw_models::Targets;
use vw_net::Sequence;

/// The claims on the names of the items of a model with these claims, which place the models with these numbers.
fn gathered_names(
    alloc: Global,
    own: &ModelClaims,
    claims: &[ModelClaims],
    targets: &[Option<u32>],
    items: &[Item],
) -> Result<ModelNames, AllocError>
    ensures reads { IfOk result (λ names. names.reads
        ≡ map (λ item. map (number_named own.now.firsts) (reads_of item)) items.now) }
    ensures placed { IfOk result (λ names. names.placed
        ≡ placed_from own.now.firsts claims.now targets.now 0 0 items.now) }
{
    let reads = Sequence::of(items_reads(alloc, own, items)?);
    let placed = Sequence::of(items_placed(alloc, own, claims, targets, items)?);
    Ok(ModelNames { reads, placed })
}

/// For each model, the claims on the names that its items read and bind, given the claims on the nets of each model. It is
/// linear in the text of the design.
pub fn names_of(
    alloc: Global,
    targets: &Targets,
    claims: &[ModelClaims],
) -> Result<Vec<ModelNames>, AllocError>
    requires claims { length claims.now ≡ length targets.now.design.now.models }
    ensures { IfOk result (λ names. AreNames targets.now.design.now claims.now names.items) }
{
    let models = targets.design.models();
    let mut names = Vec::with_capacity(alloc, models.len())?;
    for number in 0..models.len() {
        let placed = targets.numbers[number].as_slice();
        names.push(gathered_names(
            alloc,
            &claims[number],
            claims,
            placed,
            models[number].items(),
        )?)?;
    }
    Ok(names)
}

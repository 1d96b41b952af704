//! `.subckt` items by numbers.
ghost use Rattle.std.specs.Prelude.{◌≡◌, ◌++◌, ℕ, Option, length, map, slice_get, option_and_then, IfOk, OnOk, []};
ghost use Rattle.vw_drivers.specs.Firsts.{number_named, claim_at};
ghost use Rattle.vw_drivers.specs.Names.{firsts_of, way_by, way_of};
ghost use Rattle.vw_drivers.specs.Steps.GatheredNames.{placed_made, placed_from};

use crate::claim::Claim;
use crate::item_numbers::{in_32_bits, target_behind};
use crate::model_claims::ModelClaims;
use crate::model_names::{PlacedNames, Way};
use std::alloc::{AllocError, Global};
use vw_design::{Bind, Item};
use vw_net::Sequence;

/// The number of the first claim on a name in the model with a number.
fn number_in_firsts(claims: &[ModelClaims], model: Option<u32>, name: &[u8]) -> Option<u32>
    ensures { result ≡ number_named (firsts_of claims.now model) name.now }
{
    claims.get(model? as usize)?.first(name)
}

/// The claim with a number in the model with a number.
fn claim_in(claims: &[ModelClaims], model: Option<u32>, number: u32) -> Option<Claim>
    ensures { result ≡ claim_at (firsts_of claims.now model) number }
{
    claims.get(model? as usize)?.claim(number)
}

/// The way from a formal, by the number and the kind of the first claim on it, and by that of its actual.
fn way_by(number: Option<u32>, claim: Option<Claim>, actual: Option<u32>) -> Way
    ensures { result ≡ way_by number claim actual }
{
    match (number, claim) {
        (Some(port), Some(Claim::Port)) => Way::Port { port, actual },
        _ => Way::Output(number),
    }
}

/// The way from the formal of a binding, where the model with this number is placed.
fn bind_way(own: &ModelClaims, claims: &[ModelClaims], model: Option<u32>, bind: &Bind) -> Way
    ensures { result ≡ way_of own.now.firsts (firsts_of claims.now model) bind.now }
{
    let number = number_in_firsts(claims, model, bind.formal().as_slice());
    let claim = number.and_then(|number| claim_in(claims, model, number));
    let actual = own.first(bind.actual().as_slice());
    way_by(number, claim, actual)
}

/// The ways from the formals of bindings.
fn binds_ways(
    alloc: Global,
    own: &ModelClaims,
    claims: &[ModelClaims],
    model: Option<u32>,
    binds: &[Bind],
) -> Result<Sequence<Way>, AllocError>
    ensures { IfOk result (λ ways. ways
        ≡ map (way_of own.now.firsts (firsts_of claims.now model)) binds.now) }
{
    let mut ways = Vec::with_capacity(alloc, binds.len())?;
    for bind in binds {
        ways.push(bind_way(own, claims, model, bind))?;
    }
    Ok(Sequence::of(ways))
}

/// Adds an item where it is a `.subckt` item, for which the model with this number stands.
fn add_placed(
    alloc: Global,
    list: &mut Vec<PlacedNames>,
    own: &ModelClaims,
    claims: &[ModelClaims],
    model: Option<u32>,
    number: usize,
    item: &Item,
) -> Result<(), AllocError>
    ensures { OnOk result (list.new.items
        ≡ list.old.items ++ placed_made own.now.firsts claims.now model number item.now) }
{
    if let Item::Sub { binds, .. } = item {
        let ways = binds_ways(alloc, own, claims, model, binds.as_slice())?;
        list.push(PlacedNames {
            item: in_32_bits(number)?,
            ways,
        })?;
    }
    Ok(())
}

/// The `.subckt` items of a model with these claims, which place the models with these numbers.
pub fn items_placed(
    alloc: Global,
    own: &ModelClaims,
    claims: &[ModelClaims],
    targets: &[Option<u32>],
    items: &[Item],
) -> Result<Vec<PlacedNames>, AllocError>
    ensures { IfOk result (λ placed. placed.items
        ≡ placed_from own.now.firsts claims.now targets.now 0 0 items.now) }
{
    let mut placed = Vec::new(alloc);
    for (number, item) in items.iter().enumerate() {
        let model = target_behind(targets, placed.len());
        add_placed(alloc, &mut placed, own, claims, model, number, item)?;
    }
    Ok(placed)
}

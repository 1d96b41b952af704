//! What items read, by numbers.
ghost use Rattle.std.specs.Prelude.{◌≡◌, ◌++◌, map, IfOk, OnOk};
ghost use Rattle.vw_drivers.specs.Firsts.{number_named};
ghost use Rattle.vw_drivers.specs.Names.{reads_of};

use crate::model_claims::ModelClaims;
use std::alloc::{AllocError, Global};
use vw_design::Item;
use vw_net::Sequence;
use vw_outside::Name;

/// Adds the numbers of the first claims on names.
fn add_numbers(
    list: &mut Vec<Option<u32>>,
    claims: &ModelClaims,
    names: &[Name],
) -> Result<(), AllocError>
    ensures { OnOk result (list.new.items
        ≡ list.old.items ++ map (number_named claims.now.firsts) names.now) }
{
    for name in names {
        list.push(claims.first(name.as_slice()))?;
    }
    Ok(())
}

/// The numbers of the first claims on what an item reads.
fn item_reads(
    alloc: Global,
    claims: &ModelClaims,
    item: &Item,
) -> Result<Sequence<Option<u32>>, AllocError>
    ensures { IfOk result (λ reads. reads
        ≡ map (number_named claims.now.firsts) (reads_of item.now)) }
{
    let mut list = Vec::new(alloc);
    match item {
        Item::Names { ins, .. } => add_numbers(&mut list, claims, ins.as_slice())?,
        Item::Latch { d, control, .. } => {
            list.push(claims.first(d.as_slice()))?;
            if let Some(control) = control {
                list.push(claims.first(control.as_slice()))?;
            }
        }
        Item::Sub { .. } => {}
    }
    Ok(Sequence::of(list))
}

/// The same for each of some items.
pub fn items_reads(
    alloc: Global,
    claims: &ModelClaims,
    items: &[Item],
) -> Result<Vec<Sequence<Option<u32>>>, AllocError>
    ensures { IfOk result (λ reads. reads.items
        ≡ map (λ item. map (number_named claims.now.firsts) (reads_of item)) items.now) }
{
    let mut reads = Vec::with_capacity(alloc, items.len())?;
    for item in items {
        reads.push(item_reads(alloc, claims, item)?)?;
    }
    Ok(reads)
}

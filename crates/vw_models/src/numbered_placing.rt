//! The models that are placed.
ghost use Rattle.std.specs.Prelude.{◌≡◌, [], List, filter_map, IfOk, OnOk};
ghost use Rattle.std.specs.List.{AllZip};
ghost use Rattle.vw_design.specs.Paths.{placings};
ghost use Rattle.vw_design.specs.ModelNumbers.{AreModelsReached, AreModelNumbers};
ghost use Rattle.vw_models.specs.Steps.PlacedModels.{IsNumberedPlacing, AreAdded, placed_by, placed_models};

use crate::placed::Targets;
use std::alloc::{AllocError, Global};
use vw_design::{Bind, Design, Item};

/// A model that an item places.
#[derive(Drop)]
pub struct NumberedPlacing<'a> {
    /// The line of the item.
    pub line: u64,
    /// The number of the model.
    pub number: u32,
    /// The bindings of the item.
    pub binds: &'a [Bind],
}

/// The models that the models that are reached place, in the order of the file. Those that the file doesn't have are
/// passed over.
pub fn placed_models<'a>(
    alloc: Global,
    targets: &Targets<'a>,
    flags: &[bool],
) -> Result<Vec<NumberedPlacing<'a>>, AllocError>
    requires flags { AreModelsReached targets.now.design.now flags.now }
    ensures { IfOk result (λ placed.
        AllZip (IsNumberedPlacing targets.now.design.now)
        (placed_models targets.now.design.now) placed.items) }
{
    let mut placed = Vec::new(alloc);
    for (number, model) in targets.design.models().iter().enumerate() {
        if flags[number] {
            add_placed(
                targets.design,
                model.items(),
                targets.numbers[number].as_slice(),
                &mut placed,
            )?;
        }
    }
    Ok(placed)
}

/// Adds the models that items place.
fn add_placed<'a>(
    design: &Design,
    items: &'a [Item],
    targets: &[Option<u32>],
    placed: &mut Vec<NumberedPlacing<'a>>,
) -> Result<(), AllocError>
    requires { AreModelNumbers design.now (placings items.now) targets.now }
    ensures { OnOk result (AreAdded design.now placed.old.items
        (filter_map (placed_by design.now) items.now) placed.new.items) }
{
    let mut place = 0;
    for item in items {
        if let Item::Sub { line, binds, .. } = item {
            if let Some(number) = targets[place] {
                placed.push(NumberedPlacing {
                    line: *line,
                    number,
                    binds: binds.as_slice(),
                })?;
            }
            place += 1;
        }
    }
    Ok(())
}

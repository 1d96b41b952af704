//! Items that name no model of the file.
ghost use Rattle.std.specs.Prelude.{◌≡◌, List, Some, None, is_none, if◌then◌else◌};
ghost use Rattle.vw_net.specs.FirstFound.{first_found};
ghost use Rattle.vw_design.specs.Paths.{placings, model_named};
ghost use Rattle.vw_design.specs.ModelFaults.{by_placing, unknown_model};
ghost use Rattle.vw_design.specs.ModelNumbers.{AreModelsReached, AreModelNumbers};
ghost use Rattle.vw_models.specs.Steps.Unknown.{unknown_of};

use crate::placed::Targets;
use vw_design::{Design, Item};

/// The line of the first item that names no model of the file, among those of the models that are reached, in the order
/// of the file. It takes no memory.
pub fn unknown_model(targets: &Targets, flags: &[bool]) -> Option<u64>
    requires flags { AreModelsReached targets.now.design.now flags.now }
    ensures { result ≡ unknown_model targets.now.design.now }
{
    for (number, model) in targets.design.models().iter().enumerate() {
        if flags[number] {
            let line = unknown_item(
                targets.design,
                model.items(),
                targets.numbers[number].as_slice(),
            );
            if line.is_some() {
                return line;
            }
        }
    }
    None
}

/// The line of the first of a model's items that names no model of the file.
fn unknown_item(design: &Design, items: &[Item], targets: &[Option<u32>]) -> Option<u64>
    requires { AreModelNumbers design.now (placings items.now) targets.now }
    ensures { result ≡ first_found (unknown_of design.now) items.now }
{
    let mut place = 0;
    for item in items {
        if let Item::Sub { line, .. } = item {
            if targets[place].is_none() {
                return Some(*line);
            }
            place += 1;
        }
    }
    None
}

//! Where claims lead.
ghost use Rattle.std.specs.Prelude.{◌≡◌, Some, option_map};
ghost use Rattle.vw_drivers.specs.Firsts.{claim_at};
ghost use Rattle.vw_drivers.specs.Names.{firsts_of};
ghost use Rattle.vw_drivers.specs.Drivers.{at_rows};
ghost use Rattle.vw_drivers.specs.Steps.FoundDrivers.{before_of, placed_of, cell_source, child_of, led_by, led_at, led, ways_of};

use crate::claim::Claim;
use crate::model_names::{PlacedNames, Way};
use crate::source::Source;
use crate::tables::Tables;
use vw_instances::{Before, ListedInstance};
use vw_net::Sequence;

/// The driver in the row of an instance at a number.
fn row_at(rows: &[Sequence<Option<Source>>], instance: usize, number: u32) -> Option<Source>
    ensures { result ≡ at_rows rows.now instance number }
{
    let row = rows.get(instance)?;
    *row.as_slice().get(number as usize)?
}

/// How much stands before an item of a model.
fn before_item(tables: &Tables, model: u32, item: u32) -> Option<Before>
    ensures { result ≡ before_of tables.now model item }
{
    let entries = tables.before().get(model as usize)?;
    entries.as_slice().get(item as usize).copied()
}

/// The `.subckt` item at a place, from 1, of a model.
fn placed_at<'a>(tables: &'a Tables, model: u32, place: u32) -> Option<&'a PlacedNames>
    ensures { option_map (λ placed. placed.now) result ≡ placed_of tables.now model place }
{
    if place == 0 {
        return None;
    }
    let names = tables.names().get(model as usize)?;
    names.placed().get(place as usize - 1)
}

/// The number of the cell that is an item of an instance.
fn cell_at(tables: &Tables, entry: ListedInstance, item: u32) -> Option<Source>
    ensures { result ≡ cell_source tables.now entry item }
{
    let before = before_item(tables, entry.model, item)?;
    let number = entry.cells.checked_add(before.cells)?;
    Some(Source::Cell(number))
}

/// The number of the instance at a place of an instance.
pub fn child_at(tables: &Tables, instance: u32, entry: ListedInstance, place: u32) -> Option<usize>
    ensures { result ≡ child_of tables.now instance entry place }
{
    let placed = placed_at(tables, entry.model, place)?;
    let before = before_item(tables, entry.model, placed.item)?;
    Some(instance as usize + 1 + before.instances as usize)
}

/// The claim with a number in the model with a number.
fn claim_in(tables: &Tables, model: u32, number: u32) -> Option<Claim>
    ensures { result ≡ claim_at (firsts_of tables.now.claims (Some model)) number }
{
    tables.claims().get(model as usize)?.claim(number)
}

/// The driver to which a claim with a number leads in an instance, by the rows of drivers.
fn led_by(
    tables: &Tables,
    outputs: &[Sequence<Option<Source>>],
    ports: &[Sequence<Option<Source>>],
    instance: u32,
    entry: ListedInstance,
    number: u32,
) -> Option<Source>
    ensures { result ≡ led_at tables.now outputs.now ports.now instance number entry }
{
    match claim_in(tables, entry.model, number)? {
        Claim::Port if instance == 0 => Some(Source::Port(number)),
        Claim::Port => row_at(ports, instance as usize, number),
        Claim::Driven(item) => cell_at(tables, entry, item),
        Claim::Bound { place, bind } => {
            let child = child_at(tables, instance, entry, place)?;
            row_at(outputs, child, bind)
        }
    }
}

/// The driver of the nets of an instance on which the first claim has this number, by the rows of drivers.
pub fn led_driver(
    tables: &Tables,
    outputs: &[Sequence<Option<Source>>],
    ports: &[Sequence<Option<Source>>],
    instance: u32,
    claim: Option<u32>,
) -> Option<Source>
    ensures { result ≡ led tables.now outputs.now ports.now instance claim }
{
    let number = claim?;
    let entry = tables.instances().get(instance as usize)?;
    led_by(tables, outputs, ports, instance, *entry, number)
}

/// The ways from the formals of the item that places an instance; none at the root.
pub fn ways_into<'a>(tables: &'a Tables, entry: ListedInstance) -> &'a [Way]
    ensures { result.now ≡ ways_of tables.now entry }
{
    let Some(parent) = tables.instances().get(entry.parent as usize) else {
        return &[];
    };
    match placed_at(tables, parent.model, entry.place) {
        Some(placed) => placed.ways.as_slice(),
        None => &[],
    }
}

//! The drivers of outputs.
ghost use Rattle.std.specs.Prelude.{◌≡◌, ◌≤◌, ℕ, length, map, IfOk};
ghost use Rattle.vw_drivers.specs.Drivers.{HasOutputs};
ghost use Rattle.vw_drivers.specs.Steps.FoundDrivers.{OfTables, output_led, outputs_made};
ghost use Rattle.vw_design.specs.declared.limits.TheConstants.{MOST_INSTANCES};

use crate::led::{led_driver, ways_into};
use crate::model_names::Way;
use crate::source::Source;
use crate::tables::Tables;
use std::alloc::{AllocError, Global};
use vw_instances::ListedInstance;
use vw_net::Sequence;

/// The driver of a formal of an instance that is no port.
fn output_at(
    tables: &Tables,
    outputs: &[Sequence<Option<Source>>],
    instance: u32,
    way: Way,
) -> Option<Source>
    ensures { result ≡ output_led tables.now outputs.now instance way }
{
    match way {
        Way::Output(claim) => led_driver(tables, outputs, &[], instance, claim),
        Way::Port { .. } => None,
    }
}

/// The drivers of the formals of an instance that are no ports, given those of the instances that it places.
fn outputs_row(
    alloc: Global,
    tables: &Tables,
    outputs: &[Sequence<Option<Source>>],
    instance: u32,
    entry: ListedInstance,
) -> Result<Sequence<Option<Source>>, AllocError>
    ensures { IfOk result (λ row. row ≡ outputs_made tables.now outputs.now instance entry) }
{
    let ways = ways_into(tables, entry);
    let mut row = Vec::with_capacity(alloc, ways.len())?;
    for way in ways {
        row.push(output_at(tables, outputs, instance, *way))?;
    }
    Ok(Sequence::of(row))
}

/// So many empty rows.
fn empty_rows(alloc: Global, count: usize) -> Result<Vec<Sequence<Option<Source>>>, AllocError>
    ensures { IfOk result (λ rows. length rows.items ≡ count) }
{
    let mut rows = Vec::with_capacity(alloc, count)?;
    for _ in 0..count {
        rows.push(Sequence::of(Vec::new(alloc)))?;
    }
    Ok(rows)
}

/// For each instance, the drivers of its formals that are no ports. What an output leads to stands in the instance or in
/// a later one, so they are found from the last instance to the first.
pub fn outputs_by(
    alloc: Global,
    tables: &Tables,
) -> Result<Vec<Sequence<Option<Source>>>, AllocError>
    requires { length tables.now.instances ≤ MOST_INSTANCES }
    ensures { IfOk result (λ rows. OfTables tables.now
        (λ design. (instance : ℕ) → HasOutputs design tables.now rows.items instance)) }
{
    let instances = tables.instances();
    let mut rows = empty_rows(alloc, instances.len())?;
    for instance in (0..instances.len()).rev() {
        let entry = instances[instance];
        let row = outputs_row(alloc, tables, rows.as_slice(), instance as u32, entry)?;
        rows[instance] = row;
    }
    Ok(rows)
}

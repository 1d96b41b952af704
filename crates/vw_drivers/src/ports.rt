//! The drivers of ports.
ghost use Rattle.std.specs.Prelude.{◌≡◌, ◌<◌, ℕ, length, IfOk, OnOk, []};
ghost use Rattle.vw_drivers.specs.Drivers.{HasOutputs, HasPorts};
ghost use Rattle.vw_drivers.specs.Steps.FoundDrivers.{OfTables, with_port, with_way, with_ways, ports_made};

use crate::led::{led_driver, ways_into};
use crate::model_names::Way;
use crate::source::Source;
use crate::tables::Tables;
use std::alloc::{AllocError, Global};
use vw_instances::ListedInstance;
use vw_net::Sequence;

/// Writes a driver at a number of a row, which grows where it is shorter.
fn put(row: &mut Vec<Option<Source>>, number: u32, source: Option<Source>) -> Result<(), AllocError>
    ensures { OnOk result (row.new.items ≡ with_port row.old.items number source) }
{
    for _ in row.len()..number as usize + 1 {
        row.push(None)?;
    }
    row[number as usize] = source;
    Ok(())
}

/// Writes the driver of a formal that is a port, given the instance in which its actual lies.
fn put_way(
    row: &mut Vec<Option<Source>>,
    tables: &Tables,
    outputs: &[Sequence<Option<Source>>],
    ports: &[Sequence<Option<Source>>],
    parent: u32,
    way: Way,
) -> Result<(), AllocError>
    ensures { OnOk result (row.new.items
        ≡ with_way tables.now outputs.now ports.now parent way row.old.items) }
{
    match way {
        Way::Output(_) => Ok(()),
        Way::Port { port, actual } => {
            put(
                row,
                port,
                led_driver(tables, outputs, ports, parent, actual),
            )
        }
    }
}

/// The drivers of the ports of an instance, given those of earlier instances.
fn ports_row(
    alloc: Global,
    tables: &Tables,
    outputs: &[Sequence<Option<Source>>],
    ports: &[Sequence<Option<Source>>],
    entry: ListedInstance,
) -> Result<Sequence<Option<Source>>, AllocError>
    ensures { IfOk result (λ row. row ≡ ports_made tables.now outputs.now ports.now entry) }
{
    let mut row = Vec::new(alloc);
    for way in ways_into(tables, entry) {
        put_way(&mut row, tables, outputs, ports, entry.parent, *way)?;
    }
    Ok(Sequence::of(row))
}

/// For each instance, the drivers of its ports, given those of outputs. The actual of a port lies in an earlier instance,
/// so they are found from the first instance to the last.
pub fn ports_by(
    alloc: Global,
    tables: &Tables,
    outputs: &[Sequence<Option<Source>>],
) -> Result<Vec<Sequence<Option<Source>>>, AllocError>
    requires { OfTables tables.now (λ design. (instance : ℕ)
        → HasOutputs design tables.now outputs.now instance) }
    ensures { IfOk result (λ rows. OfTables tables.now
        (λ design. (instance : ℕ) → HasPorts design tables.now rows.items instance)) }
{
    let mut rows = Vec::with_capacity(alloc, tables.instances().len())?;
    for entry in tables.instances() {
        let row = ports_row(alloc, tables, outputs, rows.as_slice(), *entry)?;
        rows.push(row)?;
    }
    Ok(rows)
}

//! What stands before the items of models.
ghost use Rattle.std.specs.Prelude.{◌≡◌, length, IfOk};
ghost use Rattle.std.specs.List.{AllZip};
ghost use Rattle.vw_design.specs.ModelNumbers.{AreModelNumbers};
ghost use Rattle.vw_design.specs.Paths.{placings};
ghost use Rattle.vw_instances.specs.Steps.Counting.{AreEntries};

use crate::amounts::{count_at, target_in};
use crate::counting_tables::CountingTables;
use crate::measure::{Measure, places};
use crate::sizes::Before;
use std::alloc::{AllocError, Global};
use vw_design::{Design, Item};
use vw_models::Targets;
use vw_net::Sequence;

/// What stands before each of a model's items.
fn entries_of(
    alloc: Global,
    design: &Design,
    items: &[Item],
    targets: &[Option<u32>],
    tables: &CountingTables,
) -> Result<Sequence<Before>, AllocError>
    requires cells { length tables.now.cells.items ≡ length design.now.models }
    requires instances { length tables.now.instances.items ≡ length design.now.models }
    requires targets { AreModelNumbers design.now (placings items.now) targets.now }
    ensures { IfOk result (AreEntries design.now tables.now items.now) }
{
    let mut entries = Vec::with_capacity(alloc, items.len())?;
    let mut cells = 0;
    let mut instances = 0;
    let mut place = 0;
    for item in items {
        entries.push(Before { cells, instances })?;
        let target = target_in(item, targets, place);
        let more_cells = count_at(tables.cells.as_slice(), target);
        cells = Measure::Cells.merge(cells, Measure::Cells.of_item(item, more_cells));
        let more = count_at(tables.instances.as_slice(), target);
        instances = Measure::Instances.merge(instances, Measure::Instances.of_item(item, more));
        place += places(item);
    }
    Ok(Sequence::of(entries))
}

/// What stands before each item of each model.
pub fn all_entries(
    alloc: Global,
    targets: &Targets,
    tables: &CountingTables,
) -> Result<Vec<Sequence<Before>>, AllocError>
    requires cells { length tables.now.cells.items ≡ length targets.now.design.now.models }
    requires instances { length tables.now.instances.items ≡ length targets.now.design.now.models }
    ensures { IfOk result (λ entries.
        AllZip (λ model list. AreEntries targets.now.design.now tables.now model.items list)
        targets.now.design.now.models entries.items) }
{
    let mut entries = Vec::with_capacity(alloc, targets.numbers.len())?;
    for (number, model) in targets.design.models().iter().enumerate() {
        entries.push(entries_of(
            alloc,
            targets.design,
            model.items(),
            targets.numbers[number].as_slice(),
            tables,
        )?)?;
    }
    Ok(entries)
}

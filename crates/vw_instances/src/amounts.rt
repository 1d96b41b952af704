//! Counts of models, from those of the models that they place.
ghost use Rattle.std.specs.Prelude.{◌≡◌, ◌+◌, ◌≤◌, min, length, IfOk};
ghost use Rattle.vw_design.specs.Counts.{placed_one};
ghost use Rattle.vw_design.specs.ModelNumbers.{IsModelOrder, AreModelNumbers};
ghost use Rattle.vw_design.specs.Paths.{placings};
ghost use Rattle.vw_instances.specs.Steps.Counting.{
  most,
  amount,
  target_in,
  count_at,
  count_in,
  IsWithinModels,
  AreCounts,
};

use crate::measure::{Measure, places};
use std::alloc::{AllocError, Global};
use vw_design::{Design, Item};
use vw_models::Targets;

/// The number of the model that an item places: the one at this place among those that the item's model places. A gate or
/// latch places none.
pub fn target_in(item: &Item, targets: &[Option<u32>], place: usize) -> Option<u32>
    requires { place + placed_one item.now ≤ length targets.now }
    ensures { result ≡ target_in targets.now place item.now }
{
    match item {
        Item::Sub { .. } => targets[place],
        Item::Names { .. } => None,
        Item::Latch { .. } => None,
    }
}

/// The count of the model with a number; 0 where there is none.
pub fn count_at(counts: &[u32], target: Option<u32>) -> u32
    requires { IsWithinModels (length counts.now) target }
    ensures { result ≡ count_at counts.now target }
{
    match target {
        Some(number) => counts[number as usize],
        None => 0,
    }
}

/// The amount of items, where those of the models that they place are known.
fn amount_of(
    design: &Design,
    measure: Measure,
    items: &[Item],
    targets: &[Option<u32>],
    counts: &[u32],
) -> u32
    requires each { length counts.now ≡ length design.now.models }
    requires targets { AreModelNumbers design.now (placings items.now) targets.now }
    ensures { result ≡ min most (amount measure (count_in design.now counts.now) items.now) }
{
    let mut total = 0;
    let mut place = 0;
    for item in items {
        let target = target_in(item, targets, place);
        let below = count_at(counts, target);
        total = measure.merge(total, measure.of_item(item, below));
        place += places(item);
    }
    total
}

/// The count of each model that is reached, in an order in which each stands behind those that it places; 0 for the
/// others. It takes one step for each item of a model.
pub fn counts_of(
    alloc: Global,
    measure: Measure,
    targets: &Targets,
    order: &[u32],
) -> Result<Vec<u32>, AllocError>
    requires order { IsModelOrder targets.now.design.now order.now }
    ensures { IfOk result (λ counts. AreCounts targets.now.design.now measure counts.items) }
{
    let mut counts = vec![in alloc; 0; targets.numbers.len()]?;
    for number in order {
        let at = *number as usize;
        let items = targets.design.models()[at].items();
        counts[at] = amount_of(
            targets.design,
            measure,
            items,
            targets.numbers[at].as_slice(),
            counts.as_slice(),
        );
    }
    Ok(counts)
}

//! What is counted of models.
ghost use Rattle.std.specs.Prelude.{◌≡◌, min};
ghost use Rattle.vw_design.specs.Counts.{placed_one};
ghost use Rattle.vw_instances.specs.Steps.Counting.{most, merged, own, cell_amount, single};

use std::cmp;
use vw_design::Item;

/// What is counted. All counts end at the greatest `u32` and stay there, which is far above each limit.
#[derive(Clone, Copy, Debug, PartialEq, Eq)]
pub enum Measure {
    /// The instances that are placed, at any depth.
    Instances,
    /// Their bindings.
    Bindings,
    /// The gates and latches, at any depth.
    Cells,
    /// The levels of instances.
    Levels,
}

impl Measure {
    /// The amount of two parts together.
    pub fn merge(self, one: u32, other: u32) -> u32
        ensures { result ≡ min most (merged self one other) }
    {
        match self {
            Measure::Levels => cmp::max(one, other),
            Measure::Instances => one.saturating_add(other),
            Measure::Bindings => one.saturating_add(other),
            Measure::Cells => one.saturating_add(other),
        }
    }

    /// The amount of an item, where that of the model that it places is given.
    pub fn of_item(self, item: &Item, below: u32) -> u32
        ensures { result ≡ min most (single self item.now below) }
    {
        match item {
            Item::Sub { binds, .. } => self.of_placing(binds.len()).saturating_add(below),
            Item::Names { .. } => self.of_cell(),
            Item::Latch { .. } => self.of_cell(),
        }
    }

    /// What a placed model counts by itself, with so many bindings.
    fn of_placing(self, bindings: usize) -> u32
        ensures { result ≡ min most (own self bindings) }
    {
        match self {
            Measure::Instances => 1,
            Measure::Bindings => cmp::min(bindings, u32::MAX as usize) as u32,
            Measure::Cells => 0,
            Measure::Levels => 1,
        }
    }

    /// What a gate or latch counts.
    fn of_cell(self) -> u32
        ensures { result ≡ cell_amount self }
    {
        match self {
            Measure::Instances => 0,
            Measure::Bindings => 0,
            Measure::Cells => 1,
            Measure::Levels => 0,
        }
    }
}

/// How many models an item places: one or none.
pub fn places(item: &Item) -> usize
    ensures { result ≡ placed_one item.now }
{
    match item {
        Item::Sub { .. } => 1,
        Item::Names { .. } => 0,
        Item::Latch { .. } => 0,
    }
}

//! The pins that a plan uses, and when.
ghost use Rattle.std.specs.Prelude.{◌≡◌, ◌++◌, [], ◌∷◌, IfOk, OnOk};
ghost use Rattle.std.specs.List.{flat_map, list_any};
ghost use Rattle.vw_plan.specs.Earliest.{is_in_use};
ghost use Rattle.vw_plan.specs.Sound.{hops_of};
ghost use Rattle.vw_report.specs.Steps.Busy.{AddsSlots, HasSlots, is_used};

use std::alloc::{AllocError, Global};
use std::collections::HashMap;
use std::hash::{BuildHasherDefault, DefaultHasher};
use vw_plan::{Hop, Plan};

/// The slots that hops use: a pin of a link, by the nodes that it leaves and reaches, in a microcycle. The hasher is SipHash,
/// since strangers write plans.
pub struct BusyPins {
    pub slots: HashMap<((u32, u32), (u32, u64)), (), BuildHasherDefault<DefaultHasher>>,
}

impl Drop for BusyPins {
    fn drop(self) {
        let BusyPins { slots: _ } = self;
    }
}

impl BusyPins {
    /// No slot.
    fn none(alloc: Global) -> Self
        ensures { HasSlots [] result.slots }
    {
        BusyPins {
            slots: HashMap::with_hasher(alloc, BuildHasherDefault::new()),
        }
    }

    /// Adds the slot of a hop.
    fn add(&mut self, hop: &Hop) -> Result<(), AllocError>
        ensures { OnOk result (AddsSlots (hop.now ∷ []) self.old.slots self.new.slots) }
    {
        let key = ((hop.from(), hop.to()), (hop.pin(), hop.at()));
        self.slots.insert(key, ())?;
        Ok(())
    }

    /// Adds the slots of hops.
    fn add_all(&mut self, hops: &[Hop]) -> Result<(), AllocError>
        ensures { OnOk result (AddsSlots hops.now self.old.slots self.new.slots) }
    {
        for hop in hops {
            self.add(hop)?;
        }
        Ok(())
    }

    /// The slots of the hops of a plan.
    pub fn of(alloc: Global, plan: &Plan) -> Result<Self, AllocError>
        ensures { IfOk result (λ busy. HasSlots (hops_of plan.now) busy.slots) }
    {
        let mut busy = BusyPins::none(alloc);
        for wire in plan.wires() {
            busy.add_all(wire.hops())?;
        }
        Ok(busy)
    }

    /// Whether some hop uses a pin of the link between two nodes in a microcycle.
    pub fn is_used(&self, from: u32, to: u32, pin: u32, at: u64) -> bool
        ensures { result ≡ is_used self.now.slots (record { from = from; to = to; pin = pin; at = at }) }
    {
        self.slots.contains_key(&((from, to), (pin, at)))
    }
}

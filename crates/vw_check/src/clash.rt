//! Hops that share a pin.
ghost use Rattle.std.specs.Prelude.{◌≡◌, ◌<◌, ◌^◌, [], length, IfOk};
ghost use Rattle.vw_check.specs.HopFaults.{pin_clash};
ghost use Rattle.vw_check.specs.Steps.Tables.{HasFirstHops};
ghost use Rattle.vw_check.specs.Steps.Clashes.{GivesPin, IsClashIn};

use crate::fault::PlanFault;
use std::alloc::{AllocError, Global};
use std::collections::HashMap;
use std::hash::{BuildHasherDefault, DefaultHasher};
use vw_plan::{Hop, Plan, Wire};

/// The pins that hops use, each with the wire and the number of the hop that uses it first. A pin is given by the nodes of
/// its link, its number and the microcycle. The hasher is SipHash, since strangers write plans.
pub struct PinUsers {
    pub users: HashMap<((u32, u32), (u32, u64)), (u32, u32), BuildHasherDefault<DefaultHasher>>,
}

impl Drop for PinUsers {
    fn drop(self) {
        let PinUsers { users: _ } = self;
    }
}

impl PinUsers {
    /// No pin.
    fn none(alloc: Global) -> Self
        ensures { HasFirstHops [] result.users }
    {
        PinUsers {
            users: HashMap::with_hasher(alloc, BuildHasherDefault::new()),
        }
    }

    /// Gives a hop its pin. Where a hop before it uses the pin, it answers that one's wire and number.
    fn give(&mut self, wire: u32, number: u32, hop: &Hop) -> Result<Option<(u32, u32)>, AllocError>
        ensures { IfOk result (GivesPin wire number hop.now self.old.users self.new.users) }
    {
        let key = ((hop.from(), hop.to()), (hop.pin(), hop.at()));
        Ok(self.users.insert(key, (wire, number))?)
    }
}

/// The first hop of a wire that shares its pin with an earlier one, of this wire or of those before it.
fn clash_in(pins: &mut PinUsers, number: u32, wire: &Wire) -> Result<Option<PlanFault>, AllocError>
    requires { length wire.now.hops < 2 ^ 32 }
    ensures { IfOk result (IsClashIn number wire.now.hops pins.old.users pins.new.users) }
{
    for (place, hop) in wire.hops().iter().enumerate() {
        if let Some((first_wire, first_place)) = pins.give(number, place as u32, hop)? {
            let clash = PlanFault::PinClash(first_wire, first_place, number, place as u32);
            return Ok(Some(clash));
        }
    }
    Ok(None)
}

/// The first hop of all that shares its pin with an earlier one.
pub fn pin_clash(alloc: Global, plan: &Plan) -> Result<Option<PlanFault>, AllocError>
    ensures { IfOk result (λ found. found ≡ pin_clash plan.now) }
{
    let mut pins = PinUsers::none(alloc);
    for (number, wire) in plan.wires().iter().enumerate() {
        let found = clash_in(&mut pins, number as u32, wire)?;
        if found.is_some() {
            return Ok(found);
        }
    }
    Ok(None)
}

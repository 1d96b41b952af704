//! The hops of a plan by the pins by which they leave.
ghost use Rattle.std.specs.Prelude.{◌≡◌, None, IfOk};
ghost use Rattle.vw_net.specs.Sorting.{sorted};
ghost use Rattle.vw_emit_text.specs.Outlets.{have_one_pin, is_of_pin, leaves_before, outlets_behind};

use crate::numbered_hop::NumberedHop;
use std::alloc::{AllocError, Global};

/// A hop, with its number among those of its pin, from 0 and by microcycle, and whether it is the last of them.
#[derive(Clone, Copy, Debug)]
pub struct Outlet {
    pub hop: NumberedHop,
    pub number: u64,
    pub is_last: bool,
}

/// Whether two hops leave by one pin.
fn have_one_pin(hop: &NumberedHop, other: &NumberedHop) -> bool
    ensures { result ≡ have_one_pin hop.now other.now }
{
    hop.link == other.link && hop.pin == other.pin
}

/// Whether there is another hop, and it leaves by the same pin.
fn is_of_pin(hop: &NumberedHop, other: Option<NumberedHop>) -> bool
    ensures { result ≡ is_of_pin hop.now other }
{
    match other {
        Some(other) => have_one_pin(hop, &other),
        None => false,
    }
}

/// Hops in order, each with its number among those of its pin.
fn in_turn(alloc: Global, hops: &[NumberedHop]) -> Result<Vec<Outlet>, AllocError>
    ensures { IfOk result (λ list. list.items ≡ outlets_behind None 0 hops.now) }
{
    let mut list = Vec::with_capacity(alloc, hops.len())?;
    let mut before = None;
    let mut number = 0u64;
    for place in 0..hops.len() {
        let hop = hops[place];
        let own = if is_of_pin(&hop, before) { number } else { 0 };
        let next = hops.get(place + 1).copied();
        let is_last = !is_of_pin(&hop, next);
        list.push(Outlet {
            hop,
            number: own,
            is_last,
        })?;
        before = Some(hop);
        number = own + 1;
    }
    Ok(list)
}

/// The hops by link, pin and microcycle, each with its number among those of its pin.
pub(crate) fn outlets(alloc: Global, hops: &[NumberedHop]) -> Result<Vec<Outlet>, AllocError>
    ensures { IfOk result (λ list. list.items ≡ outlets_behind None 0 (sorted leaves_before hops.now)) }
{
    let mut in_order = hops.to_vec(alloc)?;
    in_order.sort()?;
    in_turn(alloc, in_order.as_slice())
}

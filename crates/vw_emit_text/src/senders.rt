//! What chooses the bits that leave by pins.
ghost use Rattle.std.specs.Prelude.{◌≡◌, ◌++◌, OnOk};
ghost use Rattle.vw_emit_text.specs.Steps.{choosing, delayed_item, delayed_items, end_items, item_of, item_text, items_text, late, local_of, outlet_items, planned_by, sender_items, sent_items};
ghost use Rattle.vw_emit_hardware.specs.Locals.{delayed, sent};

use crate::emitter::Emitter;
use crate::items::{Item, push_item};
use crate::local_names::sent_name;
use crate::names::Name;
use crate::outlet::Outlet;
use std::alloc::AllocError;
use vw_net::Init;

/// What the hops of a pin give, up to one of them by its number.
fn sent(outlet: &Outlet, number: u64) -> Name
    ensures { local_of result ≡ sent outlet.now.hop.link outlet.now.hop.pin number }
{
    let (link, pin) = (u64::from(outlet.hop.link), u64::from(outlet.hop.pin));
    Name::Sent(link, pin, number)
}

/// That bit so many microcycles and one more later.
fn delayed(outlet: &Outlet, number: u64) -> Name
    ensures { local_of result ≡ delayed outlet.now.hop.link outlet.now.hop.pin number }
{
    let (link, pin) = (u64::from(outlet.hop.link), u64::from(outlet.hop.pin));
    Name::Delayed(link, pin, number)
}

/// The table that chooses the bit of a hop in its microcycle, else what the hops of its pin before it give.
fn choosing(emitter: &Emitter, outlet: &Outlet) -> Item
    ensures { item_of result ≡ choosing (planned_by emitter.now) outlet.now }
{
    let own = Name::Moment(outlet.hop.at);
    let from = sent_name(emitter, &outlet.hop);
    let out = sent(outlet, outlet.number);
    if outlet.number == 0 {
        Item::Both(own, from, out)
    } else {
        Item::BothOr(own, from, sent(outlet, outlet.number - 1), out)
    }
}

/// What the last hop of a pin has chosen, so many microcycles later.
fn late(outlet: &Outlet, later: u64) -> Name
    ensures { local_of result ≡ late outlet.now later }
{
    if later == 0 {
        sent(outlet, outlet.number)
    } else {
        delayed(outlet, later - 1)
    }
}

/// Appends a register that a bit is in while it is under way.
fn push_delay(text: &mut Vec<u8>, outlet: &Outlet, later: u64) -> Result<(), AllocError>
    ensures { OnOk result (text.new.items
        ≡ text.old.items ++ item_text (delayed_item outlet.now later)) }
{
    let (from, to) = (late(outlet, later), delayed(outlet, later));
    push_item(text, Item::Register(from, to, Init::Zero))
}

/// Appends the registers that a bit is in while it is under way.
fn push_delays(text: &mut Vec<u8>, outlet: &Outlet, lag: u64) -> Result<(), AllocError>
    ensures { OnOk result (text.new.items
        ≡ text.old.items ++ items_text (delayed_items outlet.now 0 lag)) }
{
    for later in 0..lag {
        push_delay(text, outlet, later)?;
    }
    Ok(())
}

/// Appends the lines behind the last hop of a pin.
fn push_end(text: &mut Vec<u8>, outlet: &Outlet) -> Result<(), AllocError>
    ensures { OnOk result (text.new.items ≡ text.old.items ++ items_text (end_items outlet.now)) }
{
    let lag = outlet.hop.arrival.saturating_sub(outlet.hop.at);
    push_delays(text, outlet, lag)?;
    let pin = Name::PinOut(u64::from(outlet.hop.link), u64::from(outlet.hop.pin));
    push_item(text, Item::Pass(late(outlet, lag), pin))
}

/// Appends the lines of a hop that leaves by a pin.
fn push_outlet(text: &mut Vec<u8>, emitter: &Emitter, outlet: &Outlet) -> Result<(), AllocError>
    ensures { OnOk result (text.new.items
        ≡ text.old.items ++ items_text (outlet_items (planned_by emitter.now) outlet.now)) }
{
    push_item(text, choosing(emitter, outlet))?;
    if outlet.is_last {
        push_end(text, outlet)
    } else {
        Ok(())
    }
}

/// Appends the lines of a hop, if it leaves a node.
fn push_sender(
    text: &mut Vec<u8>,
    emitter: &Emitter,
    node: u32,
    outlet: &Outlet,
) -> Result<(), AllocError>
    ensures { OnOk result (text.new.items
        ≡ text.old.items ++ items_text (sender_items (planned_by emitter.now) node outlet.now)) }
{
    if outlet.hop.from == node {
        push_outlet(text, emitter, outlet)
    } else {
        Ok(())
    }
}

/// Appends the lines of the hops that leave a node.
pub(crate) fn push_senders(
    text: &mut Vec<u8>,
    emitter: &Emitter,
    node: u32,
    outlets: &[Outlet],
) -> Result<(), AllocError>
    ensures { OnOk result (text.new.items
        ≡ text.old.items ++ items_text (sent_items (planned_by emitter.now) node outlets.now)) }
{
    for outlet in outlets {
        push_sender(text, emitter, node, outlet)?;
    }
    Ok(())
}

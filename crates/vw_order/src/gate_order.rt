//! An order of the gates of a netlist.
ghost use Rattle.std.specs.Prelude.{◌≡◌, IfOk, IfErr};
ghost use Rattle.vw_order.specs.Faults.{IsOrderFault};
ghost use Rattle.vw_order.specs.Steps.GateOrders.{IsAnswered};

use crate::depth_first::{Found, search};
use crate::gates::Gates;
use std::alloc::{AllocError, Global};
use vw_net::{Flat, Ordered, Sequence};

/// Why a netlist has no order.
#[derive(Drop)]
pub enum OrderFault {
    /// The cell numbers of gates that read each other in a loop: each reads the net of the next one, and the last one
    /// that of the first. None stands twice, and the first is the least. A gate that reads its own net stands alone.
    Loop(Sequence<u32>),
    /// There was no memory for the search.
    NoMemory,
}

/// A refusal to order a netlist. It hands the netlist back.
#[derive(Drop)]
pub struct OrderRefused {
    pub fault: OrderFault,
    pub flat: Flat,
}

/// An order of the gates, or the fault of the netlist.
fn answer(alloc: Global, flat: &Flat) -> Result<Found, AllocError>
    ensures { IfOk result (IsAnswered flat.now) }
{
    search(alloc, &Gates { flat })
}

/// The netlist with an order in which its gates can be worked out, one after the other. It is refused with `Loop` where
/// gates read each other in a loop, and feedback through a latch is none; and with `NoMemory` where there is no memory
/// for a few words of each cell. The search goes over each gate and each of its inputs once, and its calls don't nest.
pub fn order(alloc: Global, flat: Flat) -> Result<Ordered, OrderRefused>
    ensures ordered { IfOk result (λ ordered. ordered.flat ≡ flat) }
    ensures handed_back { IfErr result (λ refused. refused.flat ≡ flat) }
    ensures fault { IfErr result (λ refused. IsOrderFault flat refused.fault) }
{
    match answer(alloc, &flat) {
        Ok(Found::Order(order)) => Ok(Ordered::make(flat, Sequence::of(order))),
        Ok(Found::Circle(circle)) => Err(OrderRefused {
            fault: OrderFault::Loop(Sequence::of(circle)),
            flat,
        }),
        Err(_) => Err(OrderRefused {
            fault: OrderFault::NoMemory,
            flat,
        }),
    }
}

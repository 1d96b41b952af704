//! Laws of orders and loops, as contracts of functions that do nothing.
ghost use Rattle.std.specs.Prelude.{ℕ, List};
ghost use Rattle.vw_net.specs.declared.flat.Flat.{Flat};
ghost use Rattle.vw_net.specs.Order.{IsOrder};
ghost use Rattle.vw_order.specs.Loops.{IsGateCircle, IsListedLoop, IsLoopFree};

use crate::search_laws::order_or_circle;

/// Where there is an order, no gates read each other in a circle: neither as a loop is listed, nor with any first gate
/// and gates that stand more than once.
pub fn orders_are_loop_free()
    ensures circles { (flat : Flat) (order : List ℕ) → IsOrder flat.inputs flat.cells order
        → (numbers : List ℕ) → IsGateCircle flat numbers → ⊥ }
    ensures loops { (flat : Flat) (order : List ℕ) → IsOrder flat.inputs flat.cells order
        → IsLoopFree flat }
{}

/// Where there is no loop, there is an order.
pub fn loop_free_is_ordered()
    ensures { (flat : Flat) → IsLoopFree flat
        → (order : List ℕ) × IsOrder flat.inputs flat.cells order }
{
    order_or_circle();
}

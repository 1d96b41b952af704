//! Laws of orders and circles of numbers, as contracts of functions that do nothing.
ghost use Rattle.std.specs.Prelude.{ℕ, List, ◌⊎◌, IsTrue};
ghost use Rattle.vw_net.specs.Order.{is_among};
ghost use Rattle.vw_order.specs.Graphs.{Graph, StaysWithin};
ghost use Rattle.vw_order.specs.Orders.{IsNumberOrder};
ghost use Rattle.vw_order.specs.Circles.{IsNumberCircle, BeginsWithLeast};

/// Numbers that read each other have an order, or a circle that begins with its least number.
pub fn order_or_circle()
    ensures { (graph : Graph) → StaysWithin graph
        → ((order : List ℕ) × IsNumberOrder graph order)
        ⊎ ((numbers : List ℕ) × IsNumberCircle graph numbers × BeginsWithLeast numbers) }
{}

/// A number of an order is in no circle.
pub fn order_excludes_circle()
    ensures { (graph : Graph) (order : List ℕ) → IsNumberOrder graph order
        → (numbers : List ℕ) → IsNumberCircle graph numbers
        → (number : ℕ) → IsTrue (is_among order number) → IsTrue (is_among numbers number) → ⊥ }
{}

ghost use Rattle.std.specs.Prelude.{◌≡◌};
ghost use Rattle.vw_net.specs.Order.{IsOrder};

use crate::flat::Flat;
use crate::sequence::Sequence;

/// A netlist with an order in which its gates can be worked out, one after the other.
pub struct Ordered {
    pub flat: Flat,
    /// The cell number of each gate once, and of no latch; each gate stands after the gates whose nets it reads.
    pub order: Sequence<u32>,
    ghost is_order: { IsOrder flat.inputs flat.cells order },
}

impl Drop for Ordered {
    fn drop(self) {
        let Ordered { flat: _, order: _ } = self;
    }
}

impl Ordered {
    /// The netlist with this order. It takes no memory.
    pub fn make(flat: Flat, order: Sequence<u32>) -> Self
        requires { IsOrder flat.inputs flat.cells order }
        ensures flat { result.flat ≡ flat }
        ensures order { result.order ≡ order }
    {
        Ordered { flat, order }
    }

    /// The netlist.
    pub fn flat(&self) -> &Flat
        ensures { result.now ≡ self.now.flat }
    {
        &self.flat
    }

    /// The order: the cell numbers of the gates.
    pub fn order(&self) -> &[u32]
        ensures { result.now ≡ self.now.order }
    {
        self.order.as_slice()
    }
}

//! Netlists with the names of their nets.
ghost use Rattle.std.specs.Prelude.{◌≡◌, ◌<◌, ◌+◌, Some, length, slice_get};

use vw_net::{Ordered, Sequence};
use vw_outside::Name;

/// A netlist with an order of its gates, and the names of its nets as they are printed.
pub struct NamedNetlist {
    pub ordered: Ordered,
    /// The name of each net, by its number: of a column its own, and of a net that a cell drives its path and its name.
    pub nets: Sequence<Name>,
    /// The name of each output of the root, in order. It need not be that of the net with the output's number, which is
    /// called as its driver calls it.
    pub outputs: Sequence<Name>,
    ghost all_named: { length nets ≡ ordered.flat.inputs + length ordered.flat.cells },
}

impl Drop for NamedNetlist {
    fn drop(self) {
        let NamedNetlist {
            ordered: _,
            nets: _,
            outputs: _,
        } = self;
    }
}

impl NamedNetlist {
    /// The netlist with these names. It takes no memory.
    pub(crate) fn make(ordered: Ordered, nets: Sequence<Name>, outputs: Sequence<Name>) -> Self
        requires { length nets ≡ ordered.flat.inputs + length ordered.flat.cells }
        ensures ordered { result.ordered ≡ ordered }
        ensures nets { result.nets ≡ nets }
        ensures outputs { result.outputs ≡ outputs }
    {
        NamedNetlist {
            ordered,
            nets,
            outputs,
        }
    }

    /// The netlist with its order, without the names. It takes no memory.
    pub fn into_ordered(self) -> Ordered
        ensures { result ≡ self.ordered }
    {
        let NamedNetlist {
            ordered,
            nets: _,
            outputs: _,
        } = self;
        ordered
    }

    /// The netlist with its order, and the names of the nets, without those of the outputs. It takes no memory.
    pub fn into_parts(self) -> (Ordered, Sequence<Name>)
        ensures ordered { result.0 ≡ self.ordered }
        ensures nets { result.1 ≡ self.nets }
    {
        let NamedNetlist {
            ordered,
            nets,
            outputs: _,
        } = self;
        (ordered, nets)
    }

    /// The netlist with its order.
    pub fn ordered(&self) -> &Ordered
        ensures { result.now ≡ self.now.ordered }
    {
        &self.ordered
    }

    /// The name of the net with a number. It takes no memory.
    pub fn net_name(&self, net: u32) -> &Name
        requires { net < self.now.ordered.flat.inputs + length self.now.ordered.flat.cells }
        ensures { slice_get self.now.nets net ≡ Some result.now }
    {
        &self.nets.as_slice()[net as usize]
    }

    /// The names of the outputs of the root, in order.
    pub fn outputs(&self) -> &[Name]
        ensures { result.now ≡ self.now.outputs }
    {
        self.outputs.as_slice()
    }
}

ghost use Rattle.std.specs.Prelude.{◌≡◌};

use vw_net::Sequence;

/// A net, and a node other than its own where it is needed. Needs are ordered by net, and then by node.
#[derive(Clone, Copy, Debug, PartialEq, Eq, PartialOrd, Ord)]
pub struct Need {
    pub net: u32,
    /// The node where it is needed.
    pub to: u32,
}

impl Need {
    /// The need of a net at a node.
    pub fn make(net: u32, to: u32) -> Self
        ensures net { result.net ≡ net }
        ensures to { result.to ≡ to }
    {
        Need { net, to }
    }

    /// The net.
    pub fn net(&self) -> u32
        ensures { result ≡ self.now.net }
    {
        self.net
    }

    /// The node where it is needed.
    pub fn to(&self) -> u32
        ensures { result ≡ self.now.to }
    {
        self.to
    }
}

/// The way that a net takes to a node where it is needed.
pub struct Route {
    pub net: u32,
    /// The node where it is needed.
    pub to: u32,
    /// The nodes that it goes through, from the net's own node to the last, both included.
    pub nodes: Sequence<u32>,
}

impl Drop for Route {
    fn drop(self) {
        let Route {
            net: _,
            to: _,
            nodes: _,
        } = self;
    }
}

impl Route {
    /// The route of a net through these nodes.
    pub fn make(net: u32, to: u32, nodes: Sequence<u32>) -> Self
        ensures net { result.net ≡ net }
        ensures to { result.to ≡ to }
        ensures nodes { result.nodes ≡ nodes }
    {
        Route { net, to, nodes }
    }

    /// The net.
    pub fn net(&self) -> u32
        ensures { result ≡ self.now.net }
    {
        self.net
    }

    /// The node where it is needed.
    pub fn to(&self) -> u32
        ensures { result ≡ self.now.to }
    {
        self.to
    }

    /// The nodes that it goes through, both ends included.
    pub fn nodes(&self) -> &[u32]
        ensures { result.now ≡ self.now.nodes }
    {
        self.nodes.as_slice()
    }
}

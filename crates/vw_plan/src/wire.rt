ghost use Rattle.std.specs.Prelude.{◌≡◌};

use vw_net::Sequence;

/// One hop of a wire: a bit that is sent over a link in one microcycle.
#[derive(Clone, Copy, Debug, PartialEq, Eq)]
pub struct Hop {
    /// The node that the link leaves.
    pub from: u32,
    /// The node that the link reaches.
    pub to: u32,
    /// The pin of the link, from 0.
    pub pin: u32,
    /// The microcycle in which the bit is sent, from 0.
    pub at: u64,
}

impl Hop {
    /// The hop between these nodes, on this pin and in this microcycle.
    pub fn make(from: u32, to: u32, pin: u32, at: u64) -> Self
        ensures from { result.from ≡ from }
        ensures to { result.to ≡ to }
        ensures pin { result.pin ≡ pin }
        ensures at { result.at ≡ at }
    {
        Hop { from, to, pin, at }
    }

    /// The node that the link leaves.
    pub fn from(&self) -> u32
        ensures { result ≡ self.now.from }
    {
        self.from
    }

    /// The node that the link reaches.
    pub fn to(&self) -> u32
        ensures { result ≡ self.now.to }
    {
        self.to
    }

    /// The pin of the link.
    pub fn pin(&self) -> u32
        ensures { result ≡ self.now.pin }
    {
        self.pin
    }

    /// The microcycle in which the bit is sent.
    pub fn at(&self) -> u64
        ensures { result ≡ self.now.at }
    {
        self.at
    }
}

/// A virtual wire: it brings the value of a net to a node, hop by hop.
pub struct Wire {
    pub net: u32,
    /// The node that it brings the net to.
    pub to: u32,
    /// The hops, in the order in which they are made.
    pub hops: Sequence<Hop>,
}

impl Drop for Wire {
    fn drop(self) {
        let Wire {
            net: _,
            to: _,
            hops: _,
        } = self;
    }
}

impl Wire {
    /// The wire of these hops.
    pub fn make(net: u32, to: u32, hops: Sequence<Hop>) -> Self
        ensures net { result.net ≡ net }
        ensures to { result.to ≡ to }
        ensures hops { result.hops ≡ hops }
    {
        Wire { net, to, hops }
    }

    /// The net.
    pub fn net(&self) -> u32
        ensures { result ≡ self.now.net }
    {
        self.net
    }

    /// The node that it brings the net to.
    pub fn to(&self) -> u32
        ensures { result ≡ self.now.to }
    {
        self.to
    }

    /// The hops, in the order in which they are made.
    pub fn hops(&self) -> &[Hop]
        ensures { result.now ≡ self.now.hops }
    {
        self.hops.as_slice()
    }
}

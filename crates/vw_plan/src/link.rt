ghost use Rattle.std.specs.Prelude.{◌≡◌};

/// A link of a board. It leads one way, from a node to another, and has a number of pins. Each pin takes one bit in
/// each microcycle, also while earlier bits are still under way.
#[derive(Clone, Copy, Debug, PartialEq, Eq)]
pub struct Link {
    /// The node that it leaves: 0 for the host, else a chip.
    pub from: u32,
    /// The node that it reaches.
    pub to: u32,
    /// The number of its pins.
    pub width: u32,
    /// How many microcycles a bit takes over it. With a delay of 1 it arrives in the microcycle in which it is sent.
    pub delay: u32,
}

impl Link {
    /// The link between these nodes, with this many pins, over which a bit takes this many microcycles.
    pub fn make(from: u32, to: u32, width: u32, delay: u32) -> Self
        ensures from { result.from ≡ from }
        ensures to { result.to ≡ to }
        ensures width { result.width ≡ width }
        ensures delay { result.delay ≡ delay }
    {
        Link {
            from,
            to,
            width,
            delay,
        }
    }

    /// The node that it leaves.
    pub fn from(&self) -> u32
        ensures { result ≡ self.now.from }
    {
        self.from
    }

    /// The node that it reaches.
    pub fn to(&self) -> u32
        ensures { result ≡ self.now.to }
    {
        self.to
    }

    /// The number of its pins.
    pub fn width(&self) -> u32
        ensures { result ≡ self.now.width }
    {
        self.width
    }

    /// How many microcycles a bit takes over it.
    pub fn delay(&self) -> u32
        ensures { result ≡ self.now.delay }
    {
        self.delay
    }
}

ghost use Rattle.std.specs.Prelude.{◌≡◌};

use vw_net::Sequence;

/// A net that is needed at a node, and when it can be there, by the depth of the design alone.
#[derive(Clone, Copy, Debug, PartialEq, Eq, PartialOrd, Ord)]
pub struct Inlet {
    pub time: u64,
    pub net: u32,
}

impl Inlet {
    /// The net with its time.
    pub fn make(time: u64, net: u32) -> Self
        ensures { result.net ≡ net }
    {
        Inlet { time, net }
    }

    /// The net.
    pub fn net(&self) -> u32
        ensures { result ≡ self.now.net }
    {
        self.net
    }
}

/// Where the inlet of a net stands.
#[derive(Clone, Copy, Debug, PartialEq, Eq, PartialOrd, Ord)]
pub struct Spot {
    pub net: u32,
    pub place: usize,
}

impl Spot {
    /// The place of a net.
    pub fn make(net: u32, place: usize) -> Self {
        Spot { net, place }
    }
}

/// Inlets of a node whose last links are all among those of one source, if their wires are shortest.
pub struct Class {
    /// The node whose last links these are.
    pub source: u32,
    /// The pins of these links.
    pub pins: u64,
    /// A row with the places of the inlets.
    pub members: Sequence<u64>,
}

impl Drop for Class {
    fn drop(self) {
        let Class {
            source: _,
            pins: _,
            members: _,
        } = self;
    }
}

impl Class {
    /// The class of a source.
    pub fn make(source: u32, pins: u64, members: Sequence<u64>) -> Self
        ensures source { result.source ≡ source }
        ensures pins { result.pins ≡ pins }
        ensures members { result.members ≡ members }
    {
        Class {
            source,
            pins,
            members,
        }
    }

    /// The pins of the links.
    pub fn pins(&self) -> u64
        ensures { result ≡ self.now.pins }
    {
        self.pins
    }

    /// A row with the places of the inlets.
    pub fn members(&self) -> &[u64]
        ensures { result.now ≡ self.now.members }
    {
        self.members.as_slice()
    }
}

/// The nets that are needed at a node and come from others, by the least microcycle in which they can be there.
pub struct Inlets {
    pub nets: Sequence<u32>,
    /// Where each of them stands, by the number of the net.
    pub spots: Sequence<Spot>,
    /// Classes of them.
    pub classes: Sequence<Class>,
}

impl Drop for Inlets {
    fn drop(self) {
        let Inlets {
            nets: _,
            spots: _,
            classes: _,
        } = self;
    }
}

impl Inlets {
    /// The inlets with their spots and classes.
    pub fn make(nets: Sequence<u32>, spots: Sequence<Spot>, classes: Sequence<Class>) -> Self
        ensures nets { result.nets ≡ nets }
        ensures classes { result.classes ≡ classes }
    {
        Inlets {
            nets,
            spots,
            classes,
        }
    }

    /// The nets.
    pub fn nets(&self) -> &[u32]
        ensures { result.now ≡ self.now.nets }
    {
        self.nets.as_slice()
    }

    /// Where each of them stands.
    pub fn spots(&self) -> &[Spot] {
        self.spots.as_slice()
    }

    /// Classes of them.
    pub fn classes(&self) -> &[Class]
        ensures { result.now ≡ self.now.classes }
    {
        self.classes.as_slice()
    }
}

/// The place of a net, by spots that rise by net; any place or none where they don't.
pub fn place_of(spots: &[Spot], net: u32) -> Option<usize> {
    let mut low = 0;
    let mut high = spots.len();
    while low < high {
        let middle = low + (high - low) / 2;
        if spots[middle].net < net {
            low = middle + 1;
        } else {
            high = middle;
        }
    }
    match spots.get(low) {
        Some(spot) => Some(spot.place),
        None => None,
    }
}

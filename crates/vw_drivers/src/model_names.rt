ghost use Rattle.std.specs.Prelude.{◌≡◌};

use vw_net::Sequence;

/// Where the driver of a formal of a placed model is found.
#[derive(Clone, Copy, Debug, PartialEq, Eq)]
pub enum Way {
    /// The formal is no port of the placed model: the number of the first claim on it there, where something claims it.
    Output(Option<u32>),
    /// The formal is an input or clock of the placed model: the number of its claim there, and that of the first claim on
    /// the actual in the model that places it, where something claims that.
    Port { port: u32, actual: Option<u32> },
}

/// A `.subckt` item by numbers.
pub struct PlacedNames {
    /// The number of the item in its model, from 0.
    pub item: u32,
    /// For each binding, the way from its formal.
    pub ways: Sequence<Way>,
}

impl Drop for PlacedNames {
    fn drop(self) {
        let PlacedNames { item: _, ways: _ } = self;
    }
}

/// The names that the items of a model read and bind, each by the number of the first claim on it.
pub struct ModelNames {
    /// For each item, the numbers of the first claims on what it reads: inputs of a gate; data input and control of a
    /// latch. None where nothing claims a name.
    pub reads: Sequence<Sequence<Option<u32>>>,
    /// The `.subckt` items, in order.
    pub placed: Sequence<PlacedNames>,
}

impl Drop for ModelNames {
    fn drop(self) {
        let ModelNames {
            reads: _,
            placed: _,
        } = self;
    }
}

impl ModelNames {
    /// For each item, the numbers of the first claims on what it reads.
    pub fn reads(&self) -> &[Sequence<Option<u32>>]
        ensures { result.now ≡ self.now.reads }
    {
        self.reads.as_slice()
    }

    /// The `.subckt` items, in order.
    pub fn placed(&self) -> &[PlacedNames]
        ensures { result.now ≡ self.now.placed }
    {
        self.placed.as_slice()
    }
}

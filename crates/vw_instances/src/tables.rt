ghost use Rattle.std.specs.Prelude.{◌≡◌};

use vw_net::Sequence;

/// An instance by numbers.
#[derive(Clone, Copy, Debug, PartialEq, Eq)]
pub struct ListedInstance {
    /// The number of its model in the design.
    pub model: u32,
    /// The number of the instance that places it; 0 for the root.
    pub parent: u32,
    /// Its place there: the number, from 1, of the `.subckt` item; 0 for the root.
    pub place: u32,
    /// How many cells stand before its first item, or before the item that places it where it has none.
    pub cells: u32,
}

/// A gate or a latch by numbers.
#[derive(Clone, Copy, Debug, PartialEq, Eq)]
pub struct CellSite {
    pub instance: u32,
    /// The number of the item in the model, from 0.
    pub item: u32,
}

/// The instances and the cells of a design, in preorder.
#[derive(Drop)]
pub struct Listing {
    pub instances: Sequence<ListedInstance>,
    pub cells: Sequence<CellSite>,
}

impl Listing {
    /// The instances, by their numbers.
    pub fn instances(&self) -> &[ListedInstance]
        ensures { result.now ≡ self.now.instances }
    {
        self.instances.as_slice()
    }

    /// The cells, by their numbers.
    pub fn cells(&self) -> &[CellSite]
        ensures { result.now ≡ self.now.cells }
    {
        self.cells.as_slice()
    }
}

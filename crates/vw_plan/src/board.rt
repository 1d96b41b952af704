ghost use Rattle.std.specs.Prelude.{◌≡◌, ◌≤◌};
ghost use Rattle.vw_plan.specs.Links.{AreLinks};
ghost use Rattle.vw_net.specs.declared.limits.TheConstants.{MOST_CELLS};
ghost use Rattle.vw_plan.specs.declared.limits.TheConstants.{MOST_CHIPS, MOST_SETTLE};

use crate::link::Link;
use vw_net::Sequence;

/// A board: its chips, and the links between its nodes. Node 0 is the host, which holds the inputs and takes the
/// outputs; nodes 1 to `chips` are the chips.
pub struct Board {
    /// The number of chips, 1 to 32.
    pub chips: u32,
    /// How many cells a chip has room for, 1 to 65,536.
    pub cells: u32,
    /// How many microcycles a gate's value takes to settle on its chip, at most 15.
    pub settle: u32,
    /// The links, by their numbers.
    pub links: Sequence<Link>,
    ghost some_chips: { 1 ≤ chips },
    ghost few_chips: { chips ≤ MOST_CHIPS },
    ghost some_cells: { 1 ≤ cells },
    ghost few_cells: { cells ≤ MOST_CELLS },
    ghost quick: { settle ≤ MOST_SETTLE },
    ghost linked: { AreLinks chips links },
}

impl Drop for Board {
    fn drop(self) {
        let Board {
            chips: _,
            cells: _,
            settle: _,
            links: _,
        } = self;
    }
}

impl Board {
    /// The board with these links. It takes no memory.
    pub fn make(chips: u32, cells: u32, settle: u32, links: Sequence<Link>) -> Self
        requires some_chips { 1 ≤ chips }
        requires few_chips { chips ≤ MOST_CHIPS }
        requires some_cells { 1 ≤ cells }
        requires few_cells { cells ≤ MOST_CELLS }
        requires quick { settle ≤ MOST_SETTLE }
        requires linked { AreLinks chips links }
        ensures chips { result.chips ≡ chips }
        ensures cells { result.cells ≡ cells }
        ensures settle { result.settle ≡ settle }
        ensures links { result.links ≡ links }
    {
        Board {
            chips,
            cells,
            settle,
            links,
        }
    }

    /// The number of chips.
    pub fn chips(&self) -> u32
        ensures { result ≡ self.now.chips }
    {
        self.chips
    }

    /// How many cells a chip has room for.
    pub fn cells(&self) -> u32
        ensures { result ≡ self.now.cells }
    {
        self.cells
    }

    /// How many microcycles a gate's value takes to settle on its chip.
    pub fn settle(&self) -> u32
        ensures { result ≡ self.now.settle }
    {
        self.settle
    }

    /// The links, by their numbers.
    pub fn links(&self) -> &[Link]
        ensures { result.now ≡ self.now.links }
    {
        self.links.as_slice()
    }
}

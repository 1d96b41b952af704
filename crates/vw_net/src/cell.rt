use crate::cover::Cover;
use crate::sequence::Sequence;

/// The value of a latch before the first clock. Source: the initial values of a BLIF latch.
#[derive(Clone, Copy, Debug, PartialEq, Eq)]
pub enum Init {
    Zero,
    One,
    /// Don't care or unknown: it starts at the value that the caller chooses.
    Free,
}

/// What drives one net.
pub enum Cell {
    /// A table over the nets `ins`, in the order of the table's inputs.
    Gate { ins: Sequence<u32>, cover: Cover },
    /// A latch that takes the value of the net `d` at the end of each clock.
    Latch { d: u32, init: Init },
}

impl Drop for Cell {
    fn drop(self) {
        match self {
            Cell::Gate { ins: _, cover: _ } => {}
            Cell::Latch { d: _, init: _ } => {}
        }
    }
}

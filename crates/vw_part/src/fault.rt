/// Why cells can't be dealt to chips. It has no message of its own: what plans a design says that it doesn't fit.
#[derive(Clone, Copy, Debug, PartialEq, Eq)]
pub enum PartFault {
    /// There are more cells than the chips have room for.
    TooManyCells {
        /// How many cells there are.
        cells: u64,
        /// How many the chips have room for.
        room: u64,
    },
    /// There isn't enough memory.
    NoMemory,
}

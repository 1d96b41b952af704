/// An instance whose items are being listed.
#[derive(Clone, Copy, Debug, PartialEq, Eq)]
pub struct Frame {
    pub instance: u32,
    pub model: u32,
    /// The number of its next item.
    pub item: u32,
    /// How many `.subckt` items stand before that.
    pub before: u32,
}

/// What drives a net, by numbers.
#[derive(Clone, Copy, Debug, PartialEq, Eq)]
pub enum Source {
    /// An input or a clock of the root: the number of its claim among the claims of the root's model.
    Port(u32),
    /// A gate or a latch: its number in preorder.
    Cell(u32),
}

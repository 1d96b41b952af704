ghost use Rattle.std.specs.Prelude.{◌≡◌};

/// What drives a net, by its number.
#[derive(Clone, Copy, Debug, PartialEq, Eq)]
pub enum Driver {
    /// A column of the stimulus.
    Column(u32),
    /// A clock port of the root.
    Clock,
    /// A gate or a latch.
    Cell(u32),
}

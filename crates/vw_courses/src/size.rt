ghost use Rattle.std.specs.Prelude.{◌≤◌};

/// The size of a demo.
#[derive(Clone, Copy)]
pub struct Size {
    /// The number of cells of its design, from 1 to 20,000.
    pub cells: u32,
    ghost some: { 1 ≤ cells },
    ghost few: { cells ≤ 20000 },
}

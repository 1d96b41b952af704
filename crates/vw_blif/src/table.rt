ghost use Rattle.std.specs.Prelude.{◌≡◌, ◌≤◌, length};
ghost use Rattle.std.specs.List.{All};

use vw_net::{Row, Sequence};
use vw_outside::Name;

/// A table whose rows are being read.
#[derive(Drop)]
pub struct GrowingTable {
    /// The number of its `.names` line.
    pub line: u64,
    pub ins: Sequence<Name>,
    pub out: Name,
    /// Whether the rows end in `1`; nothing before the first row.
    pub on: Option<bool>,
    pub rows: Vec<Row>,
    ghost narrow: { length ins ≤ 128 },
    ghost even: { All (λ row. length row.marks ≡ length ins) rows.items },
}

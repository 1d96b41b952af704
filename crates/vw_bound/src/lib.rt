//! Periods that no plan can undercut: by the depth of a design with the delays of its board, and by the pins of nodes.
#![tactic(auto)]

mod depth;
mod laws;
mod periods;
mod placed;
mod rooms;
mod table;
mod times;

pub use depth::due;
pub use laws::{depths_bound_periods, pairs_fit_in_periods};
pub use periods::bound;
pub use placed::Placed;
pub use table::soon_table;
pub use times::{home, last_read, read, there};

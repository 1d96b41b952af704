//! The instances and the cells of a design: how many there are, counted before any expansion, and its limits; and each
//! of them by its number, in preorder. In the field: the instance tree of a hierarchical design.
#![tactic(auto)]

mod amounts;
mod count;
mod counting_tables;
mod entries;
mod frame;
mod inputs;
mod laws;
mod measure;
mod next;
mod preorder;
mod quantity;
mod sizes;
mod state;
mod step;
mod tables;
mod totals;

pub use count::sizes_of;
pub use laws::{entries_give_numbers, tables_are_one};
pub use preorder::list_instances;
pub use quantity::Quantity;
pub use sizes::{Before, Measured, Sizes};
pub use tables::{CellSite, ListedInstance, Listing};

//! Which pins of the links of a board are taken in which microcycle, and the earliest free one. In the field: a reservation
//! table.
#![tactic(auto)]

mod laws;
mod pin_use;
mod slot;
mod slot_table;

pub use laws::first_slots_are_one;
pub use slot::{Slot, Taken};
pub use slot_table::SlotTable;

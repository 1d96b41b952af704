//! Which chip has which part of a placement: the parts stay, and the chips are numbered anew, so that what is needed has
//! less far to go. In the field: placement by pairwise exchange.
#![tactic(auto)]

mod exchange;
mod node_list;
mod pair_table;
mod placement;
mod placing;

pub use placing::{PlaceRefused, place};

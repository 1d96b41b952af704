//! Laws of the definitions on paths, as contracts of functions that do nothing.
mod counts;
mod drivers;
mod faults;
mod models;
mod probes;
mod sites;
mod values;

pub use counts::{
    counts_are_weights, heights_are_counted, numbers_are_counts, weights_are_counted,
};
pub use drivers::{claims_are_single, drivers_are_one, drivers_turn, reads_are_numbered};
pub use faults::{faults_are_exact, sizes_are_small};
pub use models::{ranked_models, reached_models};
pub use probes::{bits_are_in_instances, bits_have_numbers, places_are_few};
pub use sites::{instances_are_listed, items_are_once, items_are_sites, sites_are_items};
pub use values::{
    deeper_is_the_same, gates_have_their_values, histories_agree, netlists_are_one,
    ordered_is_loop_free, reads_agree, values_agree,
};

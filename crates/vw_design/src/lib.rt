//! Designs of models with names, as a design text spells them. In the field: a hierarchical netlist.
#![tactic(auto)]

mod design;
mod item;
mod laws;
mod limits;
mod model;
mod word_set;

pub use design::Design;
pub use item::{Bind, Edge, Item};
pub use laws::{
    bits_are_in_instances, bits_have_numbers, claims_are_single, counts_are_weights,
    deeper_is_the_same, drivers_are_one, drivers_turn, faults_are_exact, gates_have_their_values,
    heights_are_counted, histories_agree, instances_are_listed, items_are_once, items_are_sites,
    netlists_are_one, numbers_are_counts, ordered_is_loop_free, places_are_few, ranked_models,
    reached_models, reads_agree, reads_are_numbered, sites_are_items, sizes_are_small,
    values_agree, weights_are_counted,
};
pub use limits::{MOST_BINDINGS, MOST_DEPTH, MOST_INSTANCES};
pub use model::Model;
pub use word_set::WordSet;

//! What an emitted board does, microclock by microclock. In the field: a cycle-accurate model of the hardware.
#![tactic(auto)]

mod laws;

pub use laws::{
    emitted_boards_show_their_designs, hops_carry_their_nets, items_read_what_is_driven,
    microclocks_follow_leads,
};

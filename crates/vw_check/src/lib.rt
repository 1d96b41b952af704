//! Whether a plan is sound, or the first reason why it isn't. In the field: translation validation (Pnueli, Siegel and
//! Singerman 1998): what a planner made is checked, and the planner isn't trusted.
#![tactic(auto)]

mod cells;
mod checker;
mod clash;
mod fault;
mod hops;
mod laws;
mod links;
mod microcycles;
mod refused;
mod wires;

pub use checker::{check, chips_fault};
pub use fault::PlanFault;
pub use laws::{
    faultless_plans_are_sound, faults_break_points, orders_change_no_fault,
    sound_plans_are_faultless,
};
pub use refused::CheckRefused;

//! Nodes in groups on threads: the board at work, with its words on links that a fabric lays. In the field: workers that
//! fork and join, with the work dealt out beforehand.
#![tactic(auto)]

mod bursts;
mod costs;
mod crew;
mod ends;
mod group;
mod groups;
mod laying;
mod pace;
mod parts;
mod patience;
mod rounds;

pub use crew::Crew;
pub use pace::Pace;

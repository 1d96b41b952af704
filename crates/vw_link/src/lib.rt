//! Links that are ruled queues between threads: each carries the script of a job, in order and once, from the end at
//! which words are put in to the end at which they are taken out. In the field: bounded channels with one producer and
//! one consumer.
#![tactic(auto)]

mod chain;
mod counts;
mod laying;
mod links;
mod receiver;
mod rule;
mod sender;

pub use links::Links;
pub use receiver::Receiver;
pub use sender::Sender;

//! What the groups of a run pass as they begin their bursts.
use std::marker::Sync;

/// Where the groups of a run with several workers come by: each calls it with its number before each of its bursts. It
/// may wait there, so that whoever watches a run sees the groups at work, or holds one up. Nothing is promised of it.
pub trait BurstGate: Sync {
    fn enter(&self, worker: u32);
}

/// A gate that lets everyone through at once.
#[derive(Clone, Copy, Drop)]
pub struct OpenGate;

impl OpenGate {
    /// It takes no memory.
    pub fn new() -> Self {
        OpenGate
    }
}

impl BurstGate for OpenGate {
    fn enter(&self, _worker: u32) {}
}

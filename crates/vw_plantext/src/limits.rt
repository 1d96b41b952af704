//! How long the texts of plans may be.

/// The most bytes of a plan text that is read.
pub const MOST_PLAN_BYTES: usize = 67_108_864;

//! How long the texts of states are.

/// No text that spells a state has more bytes.
pub const LONGEST_STATE: usize = 70_000;

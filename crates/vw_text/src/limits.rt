//! How long texts may be that several crates read or write.

/// The most bytes of a design text.
pub const MOST_DESIGN_BYTES: usize = 16_777_216;

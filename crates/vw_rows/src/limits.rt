//! How long stimuli may be.

/// The most clocks of a stimulus.
pub const MOST_CLOCKS: u64 = 4_294_967_295;

/// The most bytes of a stimulus text.
pub const MOST_STIMULUS_BYTES: u64 = 1_073_741_824;

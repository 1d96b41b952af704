//! How large boards may be, beside the [limits of netlists](vw_net). They are this project's choice.

/// The most chips of a board.
pub const MOST_CHIPS: u32 = 32;

/// The most microcycles that a gate's value takes to settle on its chip.
pub const MOST_SETTLE: u32 = 15;

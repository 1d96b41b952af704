//! How large the texts of boards and their numbers may be, beside the [limits of boards](vw_plan).

/// The most bytes of a board text.
pub const MOST_BOARD_BYTES: usize = 1_048_576;

/// The most pins that a chip may have for its links.
pub const MOST_PINS: u32 = 4_096;

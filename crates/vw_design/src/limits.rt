//! How large designs may be, beside the [limits of netlists](vw_net). They are this project's choice.

/// The most instances of a design, the root counted.
pub const MOST_INSTANCES: u32 = 65_536;

/// The most bindings of placed models, over all instances.
pub const MOST_BINDINGS: u32 = 1_048_576;

/// The greatest depth of an instance; that of the root is 1.
pub const MOST_DEPTH: u32 = 64;

//! How large netlists and their tables may be.

/// The most inputs of a netlist.
pub const MOST_INPUTS: u32 = 4_096;

/// The most gates and latches of a netlist.
pub const MOST_CELLS: u32 = 65_536;

/// The most outputs of a design.
pub const MOST_DESIGN_OUTPUTS: u32 = 4_096;

/// The most outputs of a netlist: those of a design, and 65 nets that are watched: 64 probes and a trigger.
pub const MOST_OUTPUTS: u32 = 4_161;

/// The most inputs of a table.
pub const MOST_TABLE_INPUTS: u32 = 128;

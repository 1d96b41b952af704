//! Texts of designs, boards, plans, stimuli and traces.

/// A latch that takes the exclusive or of itself and the input.
pub const TOGGLE: &str =
    ".model toggle\n.inputs en\n.outputs q\n.names en q d\n10 1\n01 1\n.latch d q 0\n.end\n";

/// A stimulus of the toggle, of three clocks, and its trace.
pub const TOGGLE_ROWS: &str = "1\n1\n0\n";

pub const TOGGLE_TRACE: &str = "trace 1 1 1\n0 0 0\n1 1 1\n2 0 0\nend 3 0\n";

/// Two chips and the host, each joined to each other by one pin.
pub const TRIANGLE: &str =
    "board 1\nchips 2\ncells 1\nsettle 0\npins 4\nlink 0 1 1\nlink 0 2 1\nlink 1 0 1\nlink 1 2 1\nlink 2 0 1\nlink 2 1 1\n";

/// The triangle, with gates that take 1 to settle.
pub const SLOW_TRIANGLE: &str =
    "board 1\nchips 2\ncells 1\nsettle 1\npins 4\nlink 0 1 1\nlink 0 2 1\nlink 1 0 1\nlink 1 2 1\nlink 2 0 1\nlink 2 1 1\n";

/// The triangle, with room for two cells on each chip.
pub const FOUR_CELLS: &str =
    "board 1\nchips 2\ncells 2\nsettle 0\npins 4\nlink 0 1 1\nlink 0 2 1\nlink 1 0 1\nlink 1 2 1\nlink 2 0 1\nlink 2 1 1\n";

/// A plan of the toggle on the triangle: its gate on chip 1, its latch on chip 2.
pub const TOGGLE_PLAN: &str =
    "plan 1 2 4 2\nchips 1 2\nwire 0 1 1\nhop 0 1 0 0\nwire 1 2 1\nhop 1 2 0 1\nwire 2 0 1\nhop 2 0 0 0\nwire 2 1 1\nhop 2 1 0 0\nend\n";

/// The same without its last line.
pub const CUT_PLAN: &str =
    "plan 1 2 4 2\nchips 1 2\nwire 0 1 1\nhop 0 1 0 0\nwire 1 2 1\nhop 1 2 0 1\nwire 2 0 1\nhop 2 0 0 0\nwire 2 1 1\nhop 2 1 0 0\n";

/// The texts of a simulation of the toggle, under the names d and s.
pub const TOGGLE_RUN: &[(&str, &str)] = &[("d", TOGGLE), ("s", TOGGLE_ROWS)];

/// The toggle on the triangle, with its plan and its stimulus, under the names d, b, p and s.
pub const TOGGLE_TEXTS: &[(&str, &str)] = &[
    ("d", TOGGLE),
    ("b", TRIANGLE),
    ("p", TOGGLE_PLAN),
    ("s", TOGGLE_ROWS),
];

/// A latch that is turned round at each clock.
pub const FLIP: &str = ".model m\n.outputs q\n.names q d\n0 1\n.latch d q 0\n";

/// Its trace over four clocks.
pub const FLIP_TRACE: &str = "trace 1 1 1\n0 0 0\n1 1 1\n2 0 0\n3 1 1\nend 4 0\n";

/// A chain of two chips behind the host, with two cells a chip.
pub const CHAIN: &str =
    "board 1\nchips 2\ncells 2\nsettle 0\npins 4\nlink 0 1 1\nlink 1 0 1\nlink 1 2 1\nlink 2 1 1\n";

/// Such a chain of one cell a chip.
pub const SMALL_CHAIN: &str =
    "board 1\nchips 2\ncells 1\nsettle 0\npins 4\nlink 0 1 1\nlink 1 0 1\nlink 1 2 1\nlink 2 1 1\n";

/// The latch on chip 2 of the chain. Its bit goes to the host by way of chip 1.
pub const FLIP_PLAN: &str = "plan 1 2 1 2\nchips 2 2\nwire 1 0 2\nhop 2 1 0 0\nhop 1 0 0 1\nend\n";

/// The latch on the chain, with its plan and four clocks, under the names d, b, p and s.
pub const FLIP_TEXTS: &[(&str, &str)] = &[
    ("d", FLIP),
    ("b", CHAIN),
    ("p", FLIP_PLAN),
    ("s", "hold 4\n"),
];

/// The chain, where a bit takes three microcycles from chip 2 to chip 1, and the plan of the latch there.
pub const FAR_CHAIN: &str =
    "board 2\nchips 2\ncells 2\nsettle 0\npins 4\nlink 0 1 1 1\nlink 1 0 1 1\nlink 1 2 1 1\nlink 2 1 1 3\n";

pub const FAR_PLAN: &str = "plan 1 2 1 4\nchips 2 2\nwire 1 0 2\nhop 2 1 0 0\nhop 1 0 0 3\nend\n";

/// An `and` of two inputs.
pub const AND: &str = ".model m\n.inputs a b\n.outputs y\n.names a b y\n11 1\n";

/// One chip of one cell, joined to the host by one pin each way.
pub const ONE_CHIP: &str = "board 1\nchips 1\ncells 1\nsettle 0\npins 2\nlink 0 1 1\nlink 1 0 1\n";

/// A plan of the `and` on the one chip: both inputs go there by one pin, one after the other.
pub const AND_PLAN: &str =
    "plan 1 1 3 3\nchips 1\nwire 0 1 1\nhop 0 1 0 0\nwire 1 1 1\nhop 0 1 0 1\nwire 2 0 1\nhop 1 0 0 2\nend\n";

/// Chains of four and of five gates behind an input.
pub const FOUR_GATES: &str =
    ".model m\n.inputs n0\n.outputs n4\n.names n0 n1\n1 1\n.names n1 n2\n1 1\n.names n2 n3\n1 1\n.names n3 n4\n1 1\n.end\n";

pub const FIVE_GATES: &str =
    ".model m\n.inputs n0\n.outputs n5\n.names n0 n1\n1 1\n.names n1 n2\n1 1\n.names n2 n3\n1 1\n.names n3 n4\n1 1\n.names n4 n5\n1 1\n.end\n";

/// One model of two gates that is placed twice, and stands later.
pub const TWO_INVERTERS: &str =
    ".model top\n.inputs a b\n.outputs y\n.subckt inv i=a o=na\n.subckt inv i=b o=nb\n.names na nb y\n11 1\n.end\n.model inv\n.inputs i\n.outputs o\n.names i t\n0 1\n.names t o\n1 1\n.end\n";

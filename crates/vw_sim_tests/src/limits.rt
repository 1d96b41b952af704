//! Texts and designs at their limits.
use std::test::Fail;
use vw_sample_calls::{DONE, Large, REFUSED, large_designs_end};
use vw_samples::{Piece, TOGGLE, is_spelled};

#[test]
fn more_clocks_than_a_batch_run(rt: HostRuntime) -> Result<(), Fail> {
    const TABLE: &[Large] = &[Large {
        design: &[(1, TOGGLE)],
        stimulus: &[(300, "1\n")],
        // the numbers of one digit, and then all that begin with 1 to 29
        out: &[
            (1, "trace 1 1 1\n"),
            (
                1,
                "0 0 0\n1 1 1\n2 0 0\n3 1 1\n4 0 0\n5 1 1\n6 0 0\n7 1 1\n8 0 0\n9 1 1\n",
            ),
            (
                29,
                "+0 0 0\n+1 1 1\n+2 0 0\n+3 1 1\n+4 0 0\n+5 1 1\n+6 0 0\n+7 1 1\n+8 0 0\n+9 1 1\n",
            ),
            (1, "end 300 0\n"),
        ],
        ..DONE
    }];
    large_designs_end(rt.alloc(), TABLE)
}

#[test]
fn as_many_columns_and_outputs_as_there_may_be_run(rt: HostRuntime) -> Result<(), Fail> {
    const TABLE: &[Large] = &[Large {
        design: &[
            (1, ".model m\n.inputs"),
            (4096, " i#"),
            (1, "\n.outputs"),
            (4096, " i#"),
            (1, "\n.end\n"),
        ],
        stimulus: &[(1024, "0110")],
        out: &[
            (1, "trace 1 4096 0\n0 "),
            (1024, "0110"),
            (1, " -\nend 1 -\n"),
        ],
        ..DONE
    }];
    large_designs_end(rt.alloc(), TABLE)
}

#[test]
fn as_many_latches_as_there_may_be_run(rt: HostRuntime) -> Result<(), Fail> {
    const TABLE: &[Large] = &[Large {
        design: &[
            (1, ".model m\n.inputs i\n.outputs q7\n"),
            (65_536, ".latch i q# 0\n"),
            (1, ".end\n"),
        ],
        stimulus: &[(1, "1\n")],
        out: &[
            (1, "trace 1 1 65536\n0 0 "),
            (65_536, "0"),
            (1, "\nend 1 "),
            (65_536, "1"),
            (1, "\n"),
        ],
        ..DONE
    }];
    large_designs_end(rt.alloc(), TABLE)
}

/// A row of 4,095 bits, with the end of its line.
const LONG_ROW: &[Piece] = &[(1365, "100"), (1, "\n")];

/// 4,096 rows of 4,095 bits, each with the end of its line, have 16,777,216 bytes.
#[test]
fn a_stimulus_at_its_limit_runs(rt: HostRuntime) -> Result<(), Fail> {
    const TABLE: &[Large] = &[Large {
        design: &[
            (1, ".model m\n.inputs"),
            (4095, " i#"),
            (1, "\n.outputs i0\n.end\n"),
        ],
        stimulus: LONG_ROW,
        times: 4096,
        out: &[(1, "trace 1 1 0\n"), (4096, "# 1 -\n"), (1, "end 4096 -\n")],
        ..DONE
    }];
    is_spelled(rt.alloc(), 4096, LONG_ROW, "100100", "100\n", 16_777_216)?;
    large_designs_end(rt.alloc(), TABLE)
}

/// The spelling of a design with nothing in it, of 16,777,216 bytes, by a name of the model that is long enough; and
/// one of a byte more.
const AT_THE_LIMIT: &[Piece] = &[
    (1, ".model "),
    (16_777_186, "m"),
    (1, "\n.inputs\n.outputs\n.end\n"),
];

const PAST_THE_LIMIT: &[Piece] = &[
    (1, ".model "),
    (16_777_187, "m"),
    (1, "\n.inputs\n.outputs\n.end\n"),
];

#[test]
fn texts_past_the_limit_are_refused(rt: HostRuntime) -> Result<(), Fail> {
    const TABLE: &[Large] = &[
        Large {
            on: "a design at the limit",
            design: AT_THE_LIMIT,
            out: &[(1, "trace 1 0 0\nend 0 -\n")],
            ..DONE
        },
        Large {
            on: "a design past the limit",
            design: PAST_THE_LIMIT,
            err: &[(1, "design 1: text longer than 16777216 bytes\n")],
            ..REFUSED
        },
    ];
    large_designs_end(rt.alloc(), TABLE)
}

#[test]
fn texts_at_the_limit_are_as_long_as_they_say(rt: HostRuntime) -> Result<(), Fail> {
    is_spelled(
        rt.alloc(),
        1,
        AT_THE_LIMIT,
        ".model m",
        ".end\n",
        16_777_216,
    )?;
    is_spelled(
        rt.alloc(),
        1,
        PAST_THE_LIMIT,
        ".model m",
        ".end\n",
        16_777_217,
    )
}

#[test]
fn designs_past_the_limits_are_refused(rt: HostRuntime) -> Result<(), Fail> {
    const TABLE: &[Large] = &[
        Large {
            on: "4096 inputs",
            design: &[
                (1, ".model m\n.inputs"),
                (4096, " i#"),
                (1, "\n.outputs q0\n.latch i0 q0 0\n.end\n"),
            ],
            out: &[(1, "trace 1 1 1\nend 0 0\n")],
            ..DONE
        },
        Large {
            on: "4097 inputs",
            design: &[
                (1, ".model m\n.inputs"),
                (4097, " i#"),
                (1, "\n.outputs q0\n.latch i0 q0 0\n.end\n"),
            ],
            err: &[(1, "design 18: more than 4096 inputs\n")],
            ..REFUSED
        },
        Large {
            on: "4096 outputs",
            design: &[
                (1, ".model m\n.inputs i0\n.outputs"),
                (4096, " q#"),
                (4096, "\n.latch i0 q# 0"),
                (1, "\n.end\n"),
            ],
            out: &[(1, "trace 1 4096 4096\nend 0 "), (4096, "0"), (1, "\n")],
            ..DONE
        },
        Large {
            on: "4097 outputs",
            design: &[
                (1, ".model m\n.inputs i0\n.outputs"),
                (4097, " q#"),
                (4097, "\n.latch i0 q# 0"),
                (1, "\n.end\n"),
            ],
            err: &[(1, "design 18: more than 4096 outputs\n")],
            ..REFUSED
        },
        Large {
            on: "4097 inputs and outputs",
            design: &[
                (1, ".model m\n.inputs"),
                (4097, " i#"),
                (1, "\n.outputs"),
                (4097, " q#"),
                (4097, "\n.latch i0 q# 0"),
                (1, "\n.end\n"),
            ],
            err: &[(1, "design 18: more than 4096 inputs\n")],
            ..REFUSED
        },
        Large {
            on: "65536 latches",
            design: &[
                (1, ".model m\n.inputs i0\n.outputs q0"),
                (65_536, "\n.latch i0 q# 0"),
                (1, "\n.end\n"),
            ],
            out: &[(1, "trace 1 1 65536\nend 0 "), (65_536, "0"), (1, "\n")],
            ..DONE
        },
        Large {
            on: "65537 latches",
            design: &[
                (1, ".model m\n.inputs i0\n.outputs q0"),
                (65_537, "\n.latch i0 q# 0"),
                (1, "\n.end\n"),
            ],
            err: &[(1, "design 18: more than 65536 cells\n")],
            ..REFUSED
        },
    ];
    large_designs_end(rt.alloc(), TABLE)
}

/// A declared clock isn't counted among the inputs. One that is a clock for a control alone is.
#[test]
fn declared_clocks_are_not_counted_as_inputs(rt: HostRuntime) -> Result<(), Fail> {
    const TABLE: &[Large] = &[
        Large {
            on: "4096 inputs and a declared clock",
            design: &[
                (1, ".model m\n.inputs c"),
                (4096, " i#"),
                (1, "\n.latch i0 q re c 0\n.clock c\n"),
            ],
            out: &[(1, "trace 1 0 1\nend 0 0\n")],
            ..DONE
        },
        Large {
            on: "4097 inputs, one of them a clock",
            design: &[
                (1, ".model m\n.inputs c"),
                (4096, " i#"),
                (1, "\n.latch i0 q re c 0\n"),
            ],
            err: &[(1, "design 18: more than 4096 inputs\n")],
            ..REFUSED
        },
        Large {
            on: "4097 inputs and a declared clock",
            design: &[
                (1, ".model m\n.inputs c"),
                (4097, " i#"),
                (1, "\n.latch i0 q re c 0\n.clock c\n"),
            ],
            err: &[(1, "design 18: more than 4096 inputs\n")],
            ..REFUSED
        },
        Large {
            on: "4096 inputs, one of them a clock",
            design: &[
                (1, ".model m\n.inputs c"),
                (4095, " i#"),
                (1, "\n.latch i0 q re c 0\n"),
            ],
            out: &[(1, "trace 1 0 1\nend 0 0\n")],
            ..DONE
        },
    ];
    large_designs_end(rt.alloc(), TABLE)
}

#[test]
fn a_table_of_128_inputs_runs(rt: HostRuntime) -> Result<(), Fail> {
    const TABLE: &[Large] = &[Large {
        design: &[
            (1, ".model m\n.inputs a\n.outputs b\n.names"),
            (128, " a"),
            (1, " b\n"),
            (128, "1"),
            (1, " 1\n"),
        ],
        stimulus: &[(1, "0\n1\n")],
        out: &[(1, "trace 1 1 0\n0 0 -\n1 1 -\nend 2 -\n")],
        ..DONE
    }];
    large_designs_end(rt.alloc(), TABLE)
}

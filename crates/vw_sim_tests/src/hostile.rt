//! Small texts that spell large designs.
use std::test::Fail;
use vw_sample_calls::{DONE, Large, REFUSED, large_designs_end};
use vw_samples::Piece;

/// What follows a model that places the next one twice: with that one's head, it can be spelled again and again.
const DOUBLED: &str = ".subckt m+\n.subckt m+\n.model m+\n";

/// What follows a model that places the next one once.
pub const CHAINED: &str = ".subckt m+\n.model m+\n";

/// How the run of a design without rows ends that has neither ports nor latches.
const NOTHING: &[Piece] = &[(1, "trace 1 0 0\nend 0 -\n")];

const INSTANCES: &[Piece] = &[(1, "design 18: more than 65536 instances\n")];

/// The message of designs whose models stand too deep.
pub const DEPTH: &[Piece] = &[(1, "design 18: more than 64 depth\n")];

/// Forty models, each but the last with two items that place the next one.
const FORTY_MODELS: &str = "\
.model m1\n.subckt m2\n.subckt m2\n.model m2\n.subckt m3\n.subckt m3\n.model m3\n.subckt m4\n.subckt m4\n\
.model m4\n.subckt m5\n.subckt m5\n.model m5\n.subckt m6\n.subckt m6\n.model m6\n.subckt m7\n.subckt m7\n\
.model m7\n.subckt m8\n.subckt m8\n.model m8\n.subckt m9\n.subckt m9\n.model m9\n.subckt m10\n.subckt m10\n\
.model m10\n.subckt m11\n.subckt m11\n.model m11\n.subckt m12\n.subckt m12\n.model m12\n.subckt m13\n.subckt m13\n\
.model m13\n.subckt m14\n.subckt m14\n.model m14\n.subckt m15\n.subckt m15\n.model m15\n.subckt m16\n.subckt m16\n\
.model m16\n.subckt m17\n.subckt m17\n.model m17\n.subckt m18\n.subckt m18\n.model m18\n.subckt m19\n.subckt m19\n\
.model m19\n.subckt m20\n.subckt m20\n.model m20\n.subckt m21\n.subckt m21\n.model m21\n.subckt m22\n.subckt m22\n\
.model m22\n.subckt m23\n.subckt m23\n.model m23\n.subckt m24\n.subckt m24\n.model m24\n.subckt m25\n.subckt m25\n\
.model m25\n.subckt m26\n.subckt m26\n.model m26\n.subckt m27\n.subckt m27\n.model m27\n.subckt m28\n.subckt m28\n\
.model m28\n.subckt m29\n.subckt m29\n.model m29\n.subckt m30\n.subckt m30\n.model m30\n.subckt m31\n.subckt m31\n\
.model m31\n.subckt m32\n.subckt m32\n.model m32\n.subckt m33\n.subckt m33\n.model m33\n.subckt m34\n.subckt m34\n\
.model m34\n.subckt m35\n.subckt m35\n.model m35\n.subckt m36\n.subckt m36\n.model m36\n.subckt m37\n.subckt m37\n\
.model m37\n.subckt m38\n.subckt m38\n.model m38\n.subckt m39\n.subckt m39\n.model m39\n.subckt m40\n.subckt m40\n\
.model m40\n\
";

#[test]
fn doubled_models_are_counted_and_not_placed(rt: HostRuntime) -> Result<(), Fail> {
    // the root and so many models; the instances are one less than 2 to the number of all models
    const TABLE: &[Large] = &[
        Large {
            on: "16 models",
            design: &[(1, ".model m0\n"), (15, DOUBLED)],
            out: NOTHING,
            ..DONE
        },
        Large {
            on: "17 models",
            design: &[(1, ".model m0\n"), (16, DOUBLED)],
            err: INSTANCES,
            ..REFUSED
        },
        Large {
            on: "40 models",
            design: &[(1, ".model m0\n"), (39, DOUBLED)],
            err: INSTANCES,
            ..REFUSED
        },
        Large {
            on: "m1 to m40",
            design: &[(1, FORTY_MODELS)],
            err: INSTANCES,
            ..REFUSED
        },
        Large {
            on: "64 models",
            design: &[(1, ".model m0\n"), (63, DOUBLED)],
            err: INSTANCES,
            ..REFUSED
        },
        Large {
            on: "65 models",
            design: &[(1, ".model m0\n"), (64, DOUBLED)],
            err: INSTANCES,
            ..REFUSED
        },
        Large {
            on: "300 models",
            design: &[(1, ".model m0\n"), (299, DOUBLED)],
            err: INSTANCES,
            ..REFUSED
        },
    ];
    large_designs_end(rt.alloc(), TABLE)
}

#[test]
fn models_are_placed_64_deep_and_no_deeper(rt: HostRuntime) -> Result<(), Fail> {
    const TABLE: &[Large] = &[
        Large {
            on: "64 models",
            design: &[(1, ".model m0\n"), (63, CHAINED)],
            out: NOTHING,
            ..DONE
        },
        Large {
            on: "65 models",
            design: &[(1, ".model m0\n"), (64, CHAINED)],
            err: DEPTH,
            ..REFUSED
        },
        Large {
            on: "2000 models",
            design: &[(1, ".model m0\n"), (1999, CHAINED)],
            err: DEPTH,
            ..REFUSED
        },
    ];
    large_designs_end(rt.alloc(), TABLE)
}

#[test]
fn a_net_of_the_deepest_model_has_its_whole_path(rt: HostRuntime) -> Result<(), Fail> {
    const TABLE: &[Large] = &[Large {
        design: &[(1, ".model m0\n"), (63, CHAINED), (1, ".names x y\n1 1\n")],
        err: &[(1, "design 19: undriven "), (63, "1/"), (1, "x\n")],
        ..REFUSED
    }];
    large_designs_end(rt.alloc(), TABLE)
}

/// Each model places the next one, and the last one the first; the root places one in the middle.
#[test]
fn a_circle_of_500_models_is_listed(rt: HostRuntime) -> Result<(), Fail> {
    const TABLE: &[Large] = &[Large {
        design: &[
            (1, ".model root\n.subckt m250\n.model m0\n"),
            (499, CHAINED),
            (1, ".subckt m0\n"),
        ],
        err: &[
            (1, "design 14: recursive models m0"),
            (499, " m+"),
            (1, "\n"),
        ],
        ..REFUSED
    }];
    large_designs_end(rt.alloc(), TABLE)
}

/// A million outputs over all instances, none of which is bound or has a driver.
#[test]
fn many_instances_of_many_unbound_outputs_run(rt: HostRuntime) -> Result<(), Fail> {
    const TABLE: &[Large] = &[Large {
        design: &[
            (1, ".model root\n.inputs a\n.outputs a\n"),
            (1000, ".subckt n\n"),
            (1, ".model n\n.outputs"),
            (1000, " o#"),
        ],
        stimulus: &[(1, "1\n")],
        out: &[(1, "trace 1 1 0\n0 1 -\nend 1 -\n")],
        ..DONE
    }];
    large_designs_end(rt.alloc(), TABLE)
}

/// Of eleven models that are doubled, the last stands at 1,024 places.
#[test]
fn bindings_are_counted_over_all_instances(rt: HostRuntime) -> Result<(), Fail> {
    const TABLE: &[Large] = &[
        Large {
            on: "1024 bindings",
            design: &[
                (1, ".model m0\n"),
                (10, DOUBLED),
                (1, ".subckt n"),
                (1024, " i#=u"),
                (1, "\n.model n\n.inputs"),
                (1024, " i#"),
            ],
            out: NOTHING,
            ..DONE
        },
        Large {
            on: "1025 bindings",
            design: &[
                (1, ".model m0\n"),
                (10, DOUBLED),
                (1, ".subckt n"),
                (1025, " i#=u"),
                (1, "\n.model n\n.inputs"),
                (1025, " i#"),
            ],
            err: &[(1, "design 18: more than 1048576 bindings\n")],
            ..REFUSED
        },
    ];
    large_designs_end(rt.alloc(), TABLE)
}

/// Of seven models that are doubled, the last stands at 64 places.
#[test]
fn cells_are_counted_over_all_instances(rt: HostRuntime) -> Result<(), Fail> {
    const TABLE: &[Large] = &[
        Large {
            on: "1024 cells",
            design: &[(1, ".model m0\n"), (6, DOUBLED), (1024, ".names k#\n")],
            out: NOTHING,
            ..DONE
        },
        Large {
            on: "1025 cells",
            design: &[(1, ".model m0\n"), (6, DOUBLED), (1025, ".names k#\n")],
            err: &[(1, "design 18: more than 65536 cells\n")],
            ..REFUSED
        },
    ];
    large_designs_end(rt.alloc(), TABLE)
}

//! Designs that are refused for what they place, bind, drive and clock.
use crate::hostile::{CHAINED, DEPTH};
use std::test::Fail;
use vw_sample_calls::{Large, REFUSED, designs_are_refused, large_designs_end};

#[test]
fn each_fault_over_several_models_has_its_line(rt: HostRuntime) -> Result<(), Fail> {
    const TABLE: &[(&str, &str)] = &[
        (
            ".model m\n.inputs a\n.subckt n i=a\n.end\n",
            "design 13: line 3: unknown model\n",
        ),
        // the second model places the fourth, which places the third, which places the second
        (
            ".model r\n.subckt c\n.model a\n.subckt c\n.model b\n.subckt a\n.model c\n.subckt b\n",
            "design 14: recursive models a c b\n",
        ),
        (
            ".model m\n.inputs a\n.subckt n i=a x=a\n.end\n.model n\n.inputs i\n.end\n",
            "design 15: line 3: unknown formal x\n",
        ),
        (
            ".model m\n.inputs a\n\n.subckt n i=a\n.end\n.model n\n.inputs i j\n.end\n",
            "design 16: line 4: unbound input j\n",
        ),
        (
            ".model m\n.inputs a\n.subckt n p=a\n.end\n.model n\n.inputs p\n.outputs o p\n.end\n",
            "design 17: model n: p is input and output\n",
        ),
        // the second item of the model that the first one places
        (
            ".model m\n.subckt n\n.model n\n.subckt l\n.subckt k\n.model l\n.model k\n.names x y\n1 1\n",
            "design 19: undriven 1/2/x\n",
        ),
        (
            ".model m\n.subckt l\n.subckt n\n.model l\n.model n\n.subckt k\n.model k\n.names x\n.names x\n",
            "design 20: two drivers of 2/1/x\n",
        ),
        (
            ".model m\n.inputs d\n.subckt n d=d\n.model n\n.inputs d\n.subckt k d=d\n.model k\n.inputs d\n.latch d q re g 0\n.names g\n1\n",
            "design 21: gated clock 1/1/g\n",
        ),
        // the controls lead to ports of the root, the first one through a formal
        (
            ".model m\n.inputs c d e\n.subckt n d=d k=e\n.latch d q re c 0\n.model n\n.inputs d k\n.latch d q re k 0\n",
            "design 22: several clocks e c\n",
        ),
        (
            ".model m\n.inputs c d\n.latch d p re c 0\n.subckt n d=d c=c\n.model n\n.inputs d c\n.latch d q fe c 0\n",
            "design 23: several edges p 1/q\n",
        ),
        (
            ".model m\n.inputs c d\n.latch d q re c 0\n.subckt n i=c\n.model n\n.inputs i\n.subckt l\n.subckt k i=i\n.model l\n.model k\n.inputs i\n.names i y\n1 1\n",
            "design 24: clock as data 1/2/i\n",
        ),
    ];
    // and of kind 18
    const DEEP: &[Large] = &[Large {
        design: &[(1, ".model m0\n"), (64, CHAINED)],
        err: DEPTH,
        ..REFUSED
    }];
    designs_are_refused(rt.alloc(), TABLE)?;
    large_designs_end(rt.alloc(), DEEP)
}

/// Each design has two faults, and the one that comes later in the text is of the kind that is looked for first.
#[test]
fn each_kind_is_looked_for_in_the_whole_design_before_the_next(
    rt: HostRuntime,
) -> Result<(), Fail> {
    const TABLE: &[(&str, &str)] = &[
        // a row that is wrong behind a model that isn't there
        (
            ".model m\n.outputs y\n.subckt n\n.names y\n11 1\n",
            "design 5: line 5: bad row\n",
        ),
        // models: not there, in a circle
        (
            ".model m\n.subckt n\n.model n\n.subckt m\n.subckt o\n",
            "design 13: line 5: unknown model\n",
        ),
        // a formal that isn't there, and then a circle
        (
            ".model m\n.subckt n x=a\n.model n\n.subckt m\n",
            "design 14: recursive models m n\n",
        ),
        // an input that isn't bound, and then a formal that isn't there
        (
            ".model m\n.inputs a\n.subckt n\n.subckt n i=a x=a\n.model n\n.inputs i\n",
            "design 15: line 4: unknown formal x\n",
        ),
        // a name that is input and output, and then an input that isn't bound
        (
            ".model m\n.inputs a\n.subckt n p=a\n.subckt k\n.model n\n.inputs p\n.outputs p\n.model k\n.inputs i\n",
            "design 16: line 4: unbound input i\n",
        ),
        // two drivers, and then none
        (
            ".model m\n.outputs y\n.names y\n.names y\n.names x z\n1 1\n",
            "design 19: undriven x\n",
        ),
        // a gated clock, and then two drivers
        (
            ".model m\n.inputs d\n.names g\n.latch d q re g 0\n.names y\n.names y\n",
            "design 20: two drivers of y\n",
        ),
        // two clocks, and then a gated one
        (
            ".model m\n.inputs a b d\n.latch d p re a 0\n.latch d q re b 0\n.names g\n.latch d r re g 0\n",
            "design 21: gated clock g\n",
        ),
        // two edges, and then two clocks
        (
            ".model m\n.inputs a b d\n.latch d p re a 0\n.latch d q fe a 0\n.latch d r re b 0\n",
            "design 22: several clocks a b\n",
        ),
        // a clock as data, and then two edges
        (
            ".model m\n.inputs c d\n.latch c p re c 0\n.latch d q fe c 0\n",
            "design 23: several edges p q\n",
        ),
        // a loop, and then a clock as data
        (
            ".model m\n.inputs c d\n.names x x\n1 1\n.latch d q re c 0\n.names c y\n1 1\n",
            "design 24: clock as data c\n",
        ),
    ];
    const DEEP: &[Large] = &[
        // a name that is input and output, behind models that stand too deep
        Large {
            on: "both ways",
            design: &[
                (1, ".model m0\n"),
                (64, CHAINED),
                (1, ".subckt n p=a\n.model n\n.inputs p\n.outputs p\n"),
            ],
            err: &[(1, "design 17: model n: p is input and output\n")],
            ..REFUSED
        },
        // and a net that nothing drives
        Large {
            on: "undriven",
            design: &[(1, ".model m0\n"), (64, CHAINED), (1, ".names x y\n1 1\n")],
            err: DEPTH,
            ..REFUSED
        },
    ];
    designs_are_refused(rt.alloc(), TABLE)?;
    large_designs_end(rt.alloc(), DEEP)
}

#[test]
fn the_first_place_of_a_kind_counts(rt: HostRuntime) -> Result<(), Fail> {
    const TABLE: &[(&str, &str)] = &[
        // the root places itself
        (
            ".model m\n.inputs a\n.outputs a\n.subckt m a=a\n.end\n",
            "design 14: recursive models m\n",
        ),
        (
            ".model a\n.subckt b\n.model b\n.subckt a\n",
            "design 14: recursive models a b\n",
        ),
        // models in the order of the file, not in that of the places
        (
            ".model m\n.subckt k\n.subckt n\n.model n\n.subckt x\n.model k\n.subckt y\n",
            "design 13: line 5: unknown model\n",
        ),
        // inputs before clocks, whatever stands first in the text
        (
            ".model m\n.subckt n\n.model n\n.clock k\n.inputs i\n",
            "design 16: line 2: unbound input i\n",
        ),
        // a clock too is to be bound
        (
            ".model m\n.inputs a\n.subckt n i=a\n.model n\n.clock k\n.inputs i\n",
            "design 16: line 3: unbound input k\n",
        ),
        // a name in both lists has its place among the inputs
        (
            ".model m\n.inputs a\n.subckt n i=a\n.model n\n.clock k b\n.inputs i b\n",
            "design 16: line 3: unbound input b\n",
        ),
        // the first of the outputs that is an input or a clock
        (
            ".model m\n.inputs a\n.subckt n p=a k=a\n.model n\n.inputs p\n.outputs k p\n.clock k\n",
            "design 17: model n: k is input and output\n",
        ),
        // the model that is placed first, not the one that stands first
        (
            ".model m\n.inputs a\n.subckt k p=a\n.subckt n q=a\n.model n\n.inputs q\n.outputs q\n.model k\n.inputs p\n.outputs p\n",
            "design 17: model k: p is input and output\n",
        ),
        // data before the control of the same latch, and the outputs of the root last
        (
            ".model m\n.outputs y\n.latch u q re v 0\n",
            "design 19: undriven u\n",
        ),
        (
            ".model m\n.inputs d\n.outputs y\n.latch d q re v 0\n",
            "design 19: undriven v\n",
        ),
        (
            ".model m\n.outputs y\n.subckt n\n.model n\n.names x z\n1 1\n",
            "design 19: undriven 1/x\n",
        ),
        (
            ".model m\n.inputs a\n.outputs a y\n.end\n",
            "design 19: undriven y\n",
        ),
        // what a placed model's items read stands in the place of the item
        (
            ".model m\n.subckt n\n.names u z\n1 1\n.model n\n.latch x z 0\n",
            "design 19: undriven 1/x\n",
        ),
        // the first control has the root's second port
        (
            ".model m\n.inputs a b d\n.latch d p re b 0\n.latch d q re a 0\n",
            "design 22: several clocks b a\n",
        ),
        // gates and latches before the outputs of the root
        (
            ".model m\n.inputs c d\n.outputs c\n.subckt n d=c k=c\n.model n\n.inputs d k\n.latch d q re k 0\n",
            "design 24: clock as data 1/d\n",
        ),
        (
            ".model m\n.inputs c d\n.outputs c\n.latch d q re c 0\n",
            "design 24: clock as data c\n",
        ),
    ];
    designs_are_refused(rt.alloc(), TABLE)
}

//! Gates that read each other, and gates in any order.
use std::test::Fail;
use vw_sample_calls::{DONE, Large, REFUSED, designs_are_refused, designs_run, large_designs_end};
use vw_samples::{Piece, is_spelled};

#[test]
fn gates_that_read_each_other_are_a_loop(rt: HostRuntime) -> Result<(), Fail> {
    const TABLE: &[(&str, &str)] = &[
        // a gate that reads its own net, also one without rows, and one that nothing else reads
        (
            ".model m\n.inputs a\n.outputs y\n.names y y\n1 1\n.end\n",
            "design 25: loop y\n",
        ),
        (".model m\n.outputs y\n.names y y\n", "design 25: loop y\n"),
        (
            ".model m\n.inputs a\n.outputs a\n.names x a x\n-1 1\n",
            "design 25: loop x\n",
        ),
        // each listed gate reads the next one, and the first one stands first in the text
        (
            ".model m\n.outputs a\n.names a b\n1 1\n.names b a\n1 1\n",
            "design 25: loop b a\n",
        ),
        (
            ".model m\n.outputs a\n.names c a\n1 1\n.names a b\n1 1\n.names b c\n1 1\n",
            "design 25: loop a c b\n",
        ),
        // gates before and behind a loop aren't listed
        (
            ".model m\n.inputs i\n.outputs y\n.names a y\n1 1\n.names b a\n1 1\n.names a n b\n11 1\n.names i n\n1 1\n",
            "design 25: loop a b\n",
        ),
        // latches are no part of one, whatever they read and whoever reads them
        (
            ".model m\n.inputs i\n.outputs q\n.latch x q 0\n.names q y x\n11 1\n.latch q p 0\n.names x p y\n11 1\n",
            "design 25: loop x y\n",
        ),
        // gates of two instances, of one gate each and of two
        (
            ".model top\n.outputs y\n.subckt buf i=y o=x\n.subckt buf i=x o=y\n.model buf\n.inputs i\n.outputs o\n.names i o\n1 1\n",
            "design 25: loop 1/o 2/o\n",
        ),
        (
            ".model top\n.outputs y\n.subckt inv i=y o=x\n.subckt inv i=x o=y\n.model inv\n.inputs i\n.outputs o\n.names i t\n0 1\n.names t o\n1 1\n",
            "design 25: loop 1/t 2/o 2/t 1/o\n",
        ),
        // a gate of the root, and one that stands two levels deeper
        (
            ".model top\n.outputs y\n.subckt l i=n o=y\n.names y n\n0 1\n.model l\n.inputs i\n.outputs o\n.subckt none\n.subckt k i=i o=o\n.model k\n.inputs i\n.outputs o\n.names i o\n1 1\n.model none\n",
            "design 25: loop 1/2/o n\n",
        ),
    ];
    designs_are_refused(rt.alloc(), TABLE)
}

/// The nets of a loop of a thousand gates, as they are listed: ten names of 3 bytes with their blanks, 90 of 4 and 900 of
/// 5.
const THOUSAND: &[Piece] = &[(1, "design 25: loop k0"), (999, " k~"), (1, "\n")];

/// Each gate but the first reads the one before it, and the first reads the last. So the second of the list is the last
/// of the text.
#[test]
fn a_loop_of_a_thousand_gates_is_listed(rt: HostRuntime) -> Result<(), Fail> {
    const TABLE: &[Large] = &[Large {
        design: &[
            (1, ".model m\n.outputs k0\n.names k999 k0\n1 1\n"),
            (999, ".names k# k+\n1 1\n"),
        ],
        err: THOUSAND,
        ..REFUSED
    }];
    let begin = "design 25: loop k0 k999 k998 k997 ";
    is_spelled(rt.alloc(), 1, THOUSAND, begin, " k3 k2 k1\n", 4906)?;
    large_designs_end(rt.alloc(), TABLE)
}

#[test]
fn gates_run_in_any_order(rt: HostRuntime) -> Result<(), Fail> {
    const TABLE: &[(&str, &str, &str)] = &[
        // a gate that reads a later one
        (
            ".model m\n.inputs a\n.outputs y\n.names n y\n0 1\n.names a n\n1 1\n.end\n",
            "1\n0\n",
            "trace 1 1 0\n0 0 -\n1 1 -\nend 2 -\n",
        ),
        // two ways from a to y, of one gate and of three, the last gate first
        (
            ".model m\n.inputs a b\n.outputs y\n.names p s y\n10 1\n01 1\n.names r s\n0 1\n.names q b r\n11 1\n.names a q\n0 1\n.names a p\n1 1\n",
            "00\n01\n10\n11\n",
            "trace 1 1 0\n0 1 -\n1 0 -\n2 0 -\n3 0 -\nend 4 -\n",
        ),
        // a gate reads itself through a latch
        (
            ".model m\n.inputs a\n.outputs q\n.names q d\n0 1\n.latch d q 0\n",
            "0\n0\n0\n",
            "trace 1 1 1\n0 0 0\n1 1 1\n2 0 0\nend 3 1\n",
        ),
        // a latch reads itself, and two instances read each other through their latches
        (
            ".model m\n.inputs a\n.outputs q\n.latch q q 1\n",
            "0\n0\n",
            "trace 1 1 1\n0 1 1\n1 1 1\nend 2 1\n",
        ),
        (
            ".model m\n.inputs a\n.outputs x y\n.subckt n i=y o=x\n.subckt n i=x o=y\n.model n\n.inputs i\n.outputs o\n.names i d\n0 1\n.latch d q 0\n.names q o\n1 1\n",
            "0\n0\n",
            "trace 1 2 2\n0 00 00\n1 11 11\nend 2 00\n",
        ),
    ];
    designs_run(rt.alloc(), TABLE)
}

/// A thousand gates, each of which inverts the next one's net, and one that passes the input on. The latches read the
/// first gate and the second.
#[test]
fn a_thousand_gates_in_reverse_order_run(rt: HostRuntime) -> Result<(), Fail> {
    const TABLE: &[Large] = &[Large {
        design: &[
            (
                1,
                ".model m\n.inputs a\n.outputs k0 k1\n.latch k0 p 0\n.latch k1 q 0\n",
            ),
            (1000, ".names k+ k#\n0 1\n"),
            (1, ".names a k1000\n1 1\n"),
        ],
        stimulus: &[(1, "1\n0\n1\n")],
        out: &[(1, "trace 1 2 2\n0 10 00\n1 01 10\n2 10 01\nend 3 10\n")],
        ..DONE
    }];
    large_designs_end(rt.alloc(), TABLE)
}

//! Who drives a net, and which nets are clocks.
use std::test::Fail;
use vw_sample_calls::{designs_are_refused, designs_run_alike};

#[test]
fn a_net_has_one_driver(rt: HostRuntime) -> Result<(), Fail> {
    const TABLE: &[(&str, &str)] = &[
        // a port and a gate, a gate and a latch, a port and an output that is bound
        (
            ".model m\n.inputs a\n.outputs a\n.names a\n1\n.end\n",
            "design 20: two drivers of a\n",
        ),
        (
            ".model m\n.inputs a\n.outputs y\n.names a y\n1 1\n.latch a y 0\n.end\n",
            "design 20: two drivers of y\n",
        ),
        (
            ".model m\n.inputs a\n.subckt n o=a\n.model n\n.outputs o\n.names o\n",
            "design 20: two drivers of a\n",
        ),
        // a clock and a latch
        (
            ".model m\n.inputs a\n.clock k\n.latch a k 0\n",
            "design 20: two drivers of k\n",
        ),
        // a formal and a gate of its model
        (
            ".model m\n.inputs a\n.subckt n i=a\n.model n\n.inputs i\n.names i\n",
            "design 20: two drivers of 1/i\n",
        ),
        // one actual for two outputs
        (
            ".model m\n.outputs y\n.subckt n o=y p=y\n.model n\n.outputs o p\n.names o\n.names p\n",
            "design 20: two drivers of y\n",
        ),
        // even where nothing drives them
        (
            ".model m\n.subckt n o=y p=y\n.model n\n.outputs o p\n",
            "design 20: two drivers of y\n",
        ),
        // what an item binds stands before what it places
        (
            ".model m\n.outputs y\n.subckt n o=y p=y\n.model n\n.outputs o p\n.names o\n.names o\n.names p\n",
            "design 20: two drivers of y\n",
        ),
        // and that before the next item
        (
            ".model m\n.outputs y\n.subckt n o=y\n.subckt n o=y\n.model n\n.outputs o\n.names o\n.names o\n",
            "design 20: two drivers of 1/o\n",
        ),
        // the second claim of y stands before that of x
        (
            ".model m\n.names x\n.names y\n.names y\n.names x\n",
            "design 20: two drivers of y\n",
        ),
        // a net is driven by its first claim, and that one is of a formal which nothing drives
        (
            ".model m\n.outputs y\n.subckt n o=y\n.names y\n.model n\n.outputs o\n",
            "design 19: undriven y\n",
        ),
    ];
    designs_are_refused(rt.alloc(), TABLE)
}

#[test]
fn what_is_read_has_a_driver(rt: HostRuntime) -> Result<(), Fail> {
    const TABLE: &[(&str, &str)] = &[
        (
            ".model m\n.inputs a\n.outputs y\n.end\n",
            "design 19: undriven y\n",
        ),
        (
            ".model m\n.inputs a\n.outputs y\n.names b y\n1 1\n.end\n",
            "design 19: undriven b\n",
        ),
        (
            ".model m\n.inputs a\n.outputs q\n.latch b q 0\n.end\n",
            "design 19: undriven b\n",
        ),
        // a table without rows reads its inputs too
        (
            ".model m\n.outputs y\n.names b y\n",
            "design 19: undriven b\n",
        ),
        // the net that is read is told, not the actual that lacks a driver
        (
            ".model m\n.subckt n i=u\n.model n\n.inputs i\n.names i t\n1 1\n",
            "design 19: undriven 1/i\n",
        ),
        // an output that its model doesn't drive
        (
            ".model m\n.outputs y\n.subckt n o=y\n.model n\n.outputs o\n",
            "design 19: undriven y\n",
        ),
        // placed models round which nothing goes
        (
            ".model m\n.outputs y\n.subckt n i=y o=z\n.subckt n i=z o=y\n.model n\n.inputs i\n.outputs o\n",
            "design 19: undriven y\n",
        ),
        // equal names of two models are two nets
        (
            ".model m\n.names t\n.subckt n\n.model n\n.names t y\n1 1\n",
            "design 19: undriven 1/t\n",
        ),
    ];
    designs_are_refused(rt.alloc(), TABLE)
}

#[test]
fn what_nothing_reads_needs_no_driver(rt: HostRuntime) -> Result<(), Fail> {
    const TABLE: &[&str] = &[
        // an actual of a formal that nothing reads
        ".model m\n.inputs a\n.outputs a\n.subckt n i=u\n.model n\n.inputs i\n",
        // an output of a placed model, bound and not bound
        ".model m\n.inputs a\n.outputs a\n.subckt n o=y\n.subckt n\n.model n\n.outputs o\n",
        // one name for an input and an output that is bound, two levels up
        ".model m\n.inputs a\n.outputs a\n.subckt l i=u o=u\n.model l\n.inputs i\n.outputs o\n.subckt n i=i\n.model n\n.inputs i\n",
        // models that nothing places: with every fault but those of the text
        ".model m\n.inputs a\n.outputs a\n.end\n.model n\n.inputs i c\n.outputs i o\n.subckt none x=y\n.subckt n z=u\n.latch c q re g 0\n.latch i q fe c 0\n.names g\n.names o\n.names u v\n1 1\n.names w w\n1 1\n.end\n",
    ];
    let trace = "trace 1 1 0\n0 1 -\n1 0 -\nend 2 -\n";
    designs_run_alike(rt.alloc(), TABLE, trace)
}

#[test]
fn clocks_are_ports_of_the_root_that_only_controls_read(rt: HostRuntime) -> Result<(), Fail> {
    const TABLE: &[(&str, &str)] = &[
        // each declared clock is one, whether a control leads to it or not
        (
            ".model m\n.outputs y\n.clock k\n.names k y\n1 1\n",
            "design 24: clock as data k\n",
        ),
        (
            ".model m\n.inputs a k\n.outputs a k\n.clock k\n",
            "design 24: clock as data k\n",
        ),
        (
            ".model m\n.inputs d c\n.clock k\n.latch d q re c 0\n.latch k p 0\n",
            "design 24: clock as data k\n",
        ),
        // and the port that a control leads to
        (
            ".model m\n.inputs c d\n.outputs q\n.latch d q re c 0\n.names c x\n1 1\n",
            "design 24: clock as data c\n",
        ),
        (
            ".model m\n.inputs c\n.latch c q re c 0\n",
            "design 24: clock as data c\n",
        ),
        // a clock that is bound to data is told by the net that is read
        (
            ".model m\n.clock k\n.subckt n i=k\n.model n\n.inputs i\n.names i t\n1 1\n",
            "design 24: clock as data 1/i\n",
        ),
        // controls that gates and latches drive
        (
            ".model m\n.inputs c d\n.outputs q\n.names c g\n1 1\n.latch d q re g 0\n",
            "design 21: gated clock g\n",
        ),
        (
            ".model m\n.inputs d\n.outputs q\n.latch d g 0\n.latch d q re g 0\n",
            "design 21: gated clock g\n",
        ),
        (
            ".model m\n.inputs d\n.names d g\n1 1\n.subckt n d=d k=g\n.model n\n.inputs d\n.clock k\n.latch d q re k 0\n",
            "design 21: gated clock 1/k\n",
        ),
        // two ports, declared clocks or not
        (
            ".model m\n.inputs c1 c2 d\n.outputs q\n.latch d q re c1 0\n.latch d p re c2 0\n",
            "design 22: several clocks c1 c2\n",
        ),
        (
            ".model m\n.inputs d b\n.clock a b\n.latch d q re b 0\n.latch d p re a 0\n",
            "design 22: several clocks b a\n",
        ),
        (
            ".model m\n.inputs d a b\n.subckt n d=d k=a\n.subckt n d=d k=a\n.subckt n d=d k=b\n.model n\n.inputs d\n.clock k\n.latch d q re k 0\n",
            "design 22: several clocks a b\n",
        ),
        // a type without a control is written too
        (
            ".model m\n.inputs d\n.latch d p re NIL 0\n.latch d q 0\n.latch d r fe NIL 0\n",
            "design 23: several edges p r\n",
        ),
    ];
    designs_are_refused(rt.alloc(), TABLE)
}

/// Each of the designs has the one column d, and one latch that takes it.
#[test]
fn clocks_are_no_columns(rt: HostRuntime) -> Result<(), Fail> {
    const TABLE: &[&str] = &[
        // no control, no clock
        ".model m\n.inputs d\n.outputs q\n.latch d q re NIL 0\n.end\n",
        // a clock that isn't used, and one that isn't declared
        ".model m\n.inputs d\n.outputs q\n.clock k\n.latch d q 0\n",
        ".model m\n.inputs d k\n.outputs q\n.clock k\n.latch d q 0\n",
        ".model m\n.inputs c d\n.outputs q\n.latch d q fe c 0\n",
        // a name in both lists of ports is one port
        ".model m\n.inputs c d\n.outputs q\n.clock c\n.latch d q re c 0\n",
        ".model m\n.inputs d c\n.outputs q\n.subckt n d=d c=c q=q\n.model n\n.inputs d c\n.outputs q\n.clock c\n.latch d q re c 0\n",
        // a control leads to another port than the declared clocks
        ".model m\n.inputs e d\n.outputs q\n.clock k l\n.latch d q re e 0\n",
        // a clock is bound to data that nothing reads, and to a clock two levels down
        ".model m\n.inputs d\n.outputs q\n.clock k\n.subckt l d=d i=k c=k q=q\n.model l\n.inputs i d\n.outputs q\n.clock c\n.subckt n d=d k=c q=q\n.model n\n.inputs d\n.outputs q\n.clock k\n.latch d q re k 0\n",
    ];
    let trace = "trace 1 1 1\n0 0 0\n1 1 1\nend 2 0\n";
    designs_run_alike(rt.alloc(), TABLE, trace)
}

/// A latch without a type goes along with any other one, and so does one that has the type of the others.
#[test]
fn latches_without_a_type_have_any_edge(rt: HostRuntime) -> Result<(), Fail> {
    const TABLE: &[&str] = &[
        ".model m\n.inputs c d\n.outputs p q r\n.latch d p 1\n.latch d q fe c 0\n.latch d r 0\n",
        ".model m\n.inputs c d\n.outputs p q r\n.latch d p re c 1\n.latch d q re NIL 0\n.latch d r 0\n",
    ];
    let trace = "trace 1 3 3\n0 100 100\n1 111 111\nend 2 000\n";
    designs_run_alike(rt.alloc(), TABLE, trace)
}

use crate::same::assert_same;
use std::alloc::{AllocError, Global};
use std::process::Abort;
use std::test::Fail;
use vw_blif::read;
use vw_design::Design;
use vw_instances::{Before, Measured, Sizes, sizes_of};
use vw_models::{ModelOrder, Targets, models_reached, order_of, targets_of, unknown_model};
use vw_net::Sequence;
use vw_samples::add_number;

/// What counting a design gives, if its models are known and place each other in no circle.
fn measured(alloc: Global, design: &Design) -> Result<Option<Measured>, AllocError> {
    let numbers = targets_of(alloc, design)?;
    let targets = Targets {
        design,
        numbers: &numbers,
    };
    let flags = models_reached(alloc, &targets)?;
    if unknown_model(&targets, flags.as_slice()).is_some() {
        return Ok(None);
    }
    match order_of(alloc, &targets)? {
        ModelOrder::Order(order) => Ok(Some(sizes_of(alloc, &targets, order.as_slice())?)),
        ModelOrder::Circle(_names) => Ok(None),
    }
}

/// Adds the counts before each item of a model: the cells, `/` and the instances.
fn add_before(alloc: Global, shown: &mut Vec<u8>, before: &[Before]) -> Result<(), AllocError> {
    for entry in before {
        shown.push(b' ')?;
        add_number(alloc, shown, u64::from(entry.cells))?;
        shown.push(b'/')?;
        add_number(alloc, shown, u64::from(entry.instances))?;
    }
    Ok(())
}

/// The counts before each item of each model, with `|` behind each model.
fn all_before(alloc: Global, models: &[Sequence<Before>]) -> Result<Vec<u8>, AllocError> {
    let mut shown = Vec::new(alloc);
    for before in models {
        add_before(alloc, &mut shown, before.as_slice())?;
        shown.push(b'|')?;
    }
    Ok(shown)
}

/// The numbers of instances and cells.
fn totals(alloc: Global, sizes: &Sizes) -> Result<Vec<u8>, AllocError> {
    let mut shown = Vec::new(alloc);
    add_number(alloc, &mut shown, u64::from(sizes.instances()))?;
    shown.extend_from_slice(b" instances, ")?;
    add_number(alloc, &mut shown, u64::from(sizes.cells()))?;
    shown.extend_from_slice(b" cells")?;
    Ok(shown)
}

/// The totals of these sizes, or the counts before each item.
fn fitting(alloc: Global, sizes: &Sizes, before: bool) -> Result<Vec<u8>, AllocError> {
    if before {
        all_before(alloc, sizes.before())
    } else {
        totals(alloc, sizes)
    }
}

/// The quantity that is too big.
fn too_big(alloc: Global, quantity: &[u8]) -> Result<Vec<u8>, AllocError> {
    let mut shown = b"too big: ".to_vec(alloc)?;
    shown.extend_from_slice(quantity)?;
    Ok(shown)
}

/// The totals of a design that fits, or the counts before each of its items; or the quantity that is too big.
fn counted(alloc: Global, design: &Design, before: bool) -> Result<Vec<u8>, AllocError> {
    match measured(alloc, design)? {
        Some(Measured::Fits(sizes)) => fitting(alloc, &sizes, before),
        Some(Measured::TooBig(quantity)) => too_big(alloc, quantity.name()),
        None => b"not measured".to_vec(alloc),
    }
}

/// What counting the design of a text gives, or the message of its fault.
fn shown(alloc: Global, text: &[u8], before: bool) -> Result<Vec<u8>, AllocError> {
    match read(alloc, text) {
        Ok(design) => counted(alloc, &design, before),
        Err(fault) => fault.text(alloc),
    }
}

/// Asserts what counting the design of a text gives.
fn assert_shown(
    rt: &impl Abort,
    alloc: Global,
    text: Vec<u8>,
    wanted: &[u8],
) -> Result<(), AllocError> {
    let found = shown(alloc, &text, false)?;
    // the text may be long, so no message has it
    assert_same(rt, b"", &found, wanted);
    Ok(())
}

/// Adds a model with this name and, for each `l`, a latch; for each other byte, a placing of a model.
fn add_model(
    text: &mut Vec<u8>,
    name: &[u8],
    items: &[u8],
    placed: &[u8],
) -> Result<(), AllocError> {
    text.extend_from_slice(b".model ")?;
    text.extend_from_slice(name)?;
    for item in items {
        if *item == b'l' {
            text.extend_from_slice(b"\n.latch d q")?;
        } else {
            text.extend_from_slice(b"\n.subckt ")?;
            text.extend_from_slice(placed)?;
        }
    }
    text.push(b'\n')?;
    Ok(())
}

/// A text of `a`, which places `b`, which places `c`.
fn three(alloc: Global, first: &[u8], second: &[u8], third: &[u8]) -> Result<Vec<u8>, AllocError> {
    let mut text = Vec::new(alloc);
    add_model(&mut text, b"a", first, b"b")?;
    add_model(&mut text, b"b", second, b"c")?;
    add_model(&mut text, b"c", third, b"c")?;
    Ok(text)
}

#[test]
fn all_that_is_placed_stands_before_the_next_item(rt: HostRuntime) -> Result<(), Fail> {
    let text = three(rt.alloc(), b"slsl", b"lsl", b"ll")?;
    let before = shown(rt.alloc(), &text, true)?;
    let wanted = b" 0/0 4/2 5/2 9/4| 0/0 1/0 3/1| 0/0 1/0|";
    assert_same(&rt, &text, &before, wanted);
    assert_shown(&rt, rt.alloc(), text, b"5 instances, 10 cells")?;
    Ok(())
}

/// A row of this many items of one kind.
fn many(alloc: Global, item: u8, count: u32) -> Result<Vec<u8>, AllocError> {
    vec![in alloc; item; count as usize]
}

/// How many models `a` places, the kind and the number of the items of `b`, and what is counted. `c` has no items, and
/// counts end at the greatest number.
const LIMITS: &[(u32, u8, u32, &[u8])] = &[
    (255, b's', 256, b"65536 instances, 0 cells"),
    (256, b's', 256, b"too big: instances"),
    (70000, b's', 70000, b"too big: instances"),
    (256, b'l', 256, b"257 instances, 65536 cells"),
    (256, b'l', 257, b"too big: cells"),
];

/// The text of a row of these limits.
fn limit_text(alloc: Global, first: u32, item: u8, second: u32) -> Result<Vec<u8>, AllocError> {
    let first = many(alloc, b's', first)?;
    let second = many(alloc, item, second)?;
    three(alloc, &first, &second, b"")
}

/// Asserts of each row what is counted.
fn assert_limits(
    rt: &impl Abort,
    alloc: Global,
    table: &[(u32, u8, u32, &[u8])],
) -> Result<(), AllocError> {
    for (first, item, second, wanted) in table {
        let text = limit_text(alloc, *first, *item, *second)?;
        assert_shown(rt, alloc, text, wanted)?;
    }
    Ok(())
}

#[test]
fn instances_and_cells_have_limits(rt: HostRuntime) -> Result<(), Fail> {
    assert_limits(&rt, rt.alloc(), LIMITS)?;
    Ok(())
}

/// Adds the model of a chain that has a name of this length, and places the next one.
fn add_link(alloc: Global, text: &mut Vec<u8>, length: u8, items: &[u8]) -> Result<(), AllocError> {
    let mut name = many(alloc, b'm', u32::from(length))?;
    let place = name.as_slice().to_vec(alloc)?;
    name.push(b'm')?;
    add_model(text, &place, items, &name)
}

/// A text of a chain of models, of which each has these items and places the next one, and the last one has items of its
/// own. Each name is longer by a letter.
fn chain(alloc: Global, count: u8, items: &[u8], last: &[u8]) -> Result<Vec<u8>, AllocError> {
    let mut text = Vec::new(alloc);
    for length in 1..count {
        add_link(alloc, &mut text, length, items)?;
    }
    let name = many(alloc, b'm', u32::from(count))?;
    add_model(&mut text, &name, last, b"")?;
    Ok(text)
}

/// The number of models of a chain, the items of each but the last, which has none, and what is counted.
const CHAINS: &[(u8, &[u8], &[u8])] = &[
    (16, b"ss", b"65535 instances, 0 cells"),
    (40, b"ss", b"too big: instances"),
    (64, b"s", b"64 instances, 0 cells"),
    (65, b"s", b"too big: depth"),
];

/// Asserts of each chain what is counted.
fn assert_chains(
    rt: &impl Abort,
    alloc: Global,
    table: &[(u8, &[u8], &[u8])],
) -> Result<(), AllocError> {
    for (count, items, wanted) in table {
        let text = chain(alloc, *count, items, b"")?;
        assert_shown(rt, alloc, text, wanted)?;
    }
    Ok(())
}

#[test]
fn chains_are_counted_and_not_expanded(rt: HostRuntime) -> Result<(), Fail> {
    assert_chains(&rt, rt.alloc(), CHAINS)?;
    Ok(())
}

#[test]
fn only_reached_models_are_counted(rt: HostRuntime) -> Result<(), Fail> {
    let latches = many(rt.alloc(), b'l', 70000)?;
    let text = three(rt.alloc(), b"l", b"s", &latches)?;
    assert_shown(&rt, rt.alloc(), text, b"1 instances, 1 cells")?;
    Ok(())
}

/// Adds a line of ports of a kind, which have the numbers below a count for names.
fn add_ports(alloc: Global, text: &mut Vec<u8>, kind: &[u8], count: u64) -> Result<(), AllocError> {
    text.extend_from_slice(kind)?;
    for number in 0..count {
        text.push(b' ')?;
        add_number(alloc, text, number)?;
    }
    text.push(b'\n')?;
    Ok(())
}

/// Adds a line so many times.
fn add_lines(text: &mut Vec<u8>, line: &[u8], count: u32) -> Result<(), AllocError> {
    for _ in 0..count {
        text.extend_from_slice(line)?;
    }
    Ok(())
}

/// A placing of `b` with its 17 outputs, all bound.
const PLACING: &[u8] =
    b".subckt b 0=n 1=n 2=n 3=n 4=n 5=n 6=n 7=n 8=n 9=n 10=n 11=n 12=n 13=n 14=n 15=n 16=n\n";

/// The model `b`.
const PLACED: &[u8] =
    b".model b\n.outputs 0 1 2 3 4 5 6 7 8 9 10 11 12 13 14 15 16\n.latch d q\n.latch d q\n";

/// A text of a design with so many inputs, of which one is a clock, and so many outputs. It places `c` so often, `c`
/// places `b` 256 times, and `b` has two latches and 17 outputs, all bound.
fn large(alloc: Global, inputs: u64, outputs: u64, placed: u32) -> Result<Vec<u8>, AllocError> {
    let mut text = b".model a\n".to_vec(alloc)?;
    add_ports(alloc, &mut text, b".inputs", inputs)?;
    add_ports(alloc, &mut text, b".clock 0\n.outputs", outputs)?;
    add_lines(&mut text, b".subckt c\n", placed)?;
    text.extend_from_slice(b".model c\n")?;
    add_lines(&mut text, PLACING, 256)?;
    text.extend_from_slice(PLACED)?;
    Ok(text)
}

/// Inputs, outputs and how often `c` is placed, and what is counted.
const LARGE: &[(u64, u64, u32, &[u8])] = &[
    // the clock isn't counted among the inputs
    (4097, 4096, 1, b"258 instances, 512 cells"),
    (4098, 4097, 256, b"too big: inputs"),
    (4097, 4097, 256, b"too big: outputs"),
    (4097, 4096, 256, b"too big: instances"),
    (4097, 4096, 241, b"too big: bindings"),
    (4097, 4096, 240, b"too big: cells"),
];

/// Asserts of each row what is counted.
fn assert_large(
    rt: &impl Abort,
    alloc: Global,
    table: &[(u64, u64, u32, &[u8])],
) -> Result<(), AllocError> {
    for (inputs, outputs, placed, wanted) in table {
        let text = large(alloc, *inputs, *outputs, *placed)?;
        assert_shown(rt, alloc, text, wanted)?;
    }
    Ok(())
}

#[test]
fn each_quantity_is_tried_in_its_turn(rt: HostRuntime) -> Result<(), Fail> {
    assert_large(&rt, rt.alloc(), LARGE)?;
    // cells come before the depth
    let latches = many(rt.alloc(), b'l', 65537)?;
    let deep = chain(rt.alloc(), 65, b"s", &latches)?;
    assert_shown(&rt, rt.alloc(), deep, b"too big: cells")?;
    Ok(())
}

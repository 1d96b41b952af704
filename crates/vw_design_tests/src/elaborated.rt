use crate::same::assert_same;
use std::alloc::{AllocError, Global};
use std::process::Abort;
use std::test::Fail;
use vw_blif::read;
use vw_elab::{Driver, Elaborated, elaborate};
use vw_flat::flatten;
use vw_net::{Cell, Flat};
use vw_samples::{add_list, name};

/// The elaborated design of a text that has no fault.
fn elaborated(alloc: Global, text: &[u8]) -> Option<Elaborated> {
    match read(alloc, text) {
        Ok(design) => elaborate(alloc, design).ok(),
        Err(_) => None,
    }
}

/// A driver, or `none`.
fn driver_text(alloc: Global, driver: Option<Driver>) -> Result<Vec<u8>, AllocError> {
    let (kind, number) = match driver {
        Some(Driver::Column(column)) => (b"column".as_slice(), column),
        Some(Driver::Cell(cell)) => (b"cell".as_slice(), cell),
        Some(Driver::Clock) => return b"clock".to_vec(alloc),
        None => return b"none".to_vec(alloc),
    };
    let mut text = Vec::new(alloc);
    add_list(alloc, &mut text, kind, &[number])?;
    Ok(text)
}

/// What drives a net of an instance.
fn driven_by(
    alloc: Global,
    elaborated: &Elaborated,
    instance: u32,
    net: &[u8],
) -> Result<Vec<u8>, AllocError> {
    let net = name(alloc, net)?;
    driver_text(alloc, elaborated.driver(instance, &net))
}

/// Asserts of nets of instances what drives them.
fn assert_drivers(
    rt: &impl Abort,
    alloc: Global,
    elaborated: &Elaborated,
    table: &[(u32, &[u8], &[u8])],
) -> Result<(), AllocError> {
    for (instance, net, wanted) in table {
        let found = driven_by(alloc, elaborated, *instance, net)?;
        assert_same(rt, net, &found, wanted);
    }
    Ok(())
}

/// A gate, an instance of `c` and a latch; `c` places `b`, which is one gate.
const NESTED: &[u8] =
    b".model a\n.inputs x\n.outputs y\n.names x n\n.subckt c p=n q=m\n.latch m y 0\n\
.model c\n.inputs p\n.outputs q\n.subckt b p=p q=q\n.model b\n.inputs p\n.outputs q\n.names p q\n";

/// Instances of that design and nets of them, and what drives these.
const NESTED_DRIVERS: &[(u32, &[u8], &[u8])] = &[
    (0, b"x", b"column 0"),
    (0, b"n", b"cell 0"),
    (0, b"m", b"cell 1"),
    (0, b"y", b"cell 2"),
    (0, b"w", b"none"),
    (1, b"p", b"cell 0"),
    (1, b"q", b"cell 1"),
    (2, b"p", b"cell 0"),
    (2, b"q", b"cell 1"),
    (3, b"p", b"none"),
];

/// Two instances of `t` in a row, from `x` over `y` to `z`. Each is a gate and a latch with the same names.
const TWINS: &[u8] = b".model a\n.inputs x\n.outputs z\n.subckt t p=x q=y\n.subckt t p=y q=z\n\
.model t\n.inputs p\n.outputs q\n.names p m\n.latch m q 1\n";

/// Instances of that design and nets of them, and what drives these.
const TWIN_DRIVERS: &[(u32, &[u8], &[u8])] = &[
    (0, b"x", b"column 0"),
    (0, b"y", b"cell 1"),
    (0, b"z", b"cell 3"),
    (0, b"w", b"none"),
    (1, b"p", b"column 0"),
    (1, b"m", b"cell 0"),
    (2, b"p", b"cell 1"),
    (2, b"m", b"cell 2"),
    (3, b"p", b"none"),
];

/// Cells of that design and inputs of them, and what these read.
const TWIN_READS: &[(u32, u32, &[u8])] = &[
    (0, 0, b"column 0"),
    (1, 0, b"cell 0"),
    (2, 0, b"cell 1"),
    (3, 0, b"cell 2"),
    (3, 1, b"none"),
    (4, 0, b"none"),
];

/// Asserts of inputs of cells what they read.
fn assert_reads(
    rt: &impl Abort,
    alloc: Global,
    elaborated: &Elaborated,
    table: &[(u32, u32, &[u8])],
) -> Result<(), AllocError> {
    for (cell, input, wanted) in table {
        let found = driver_text(alloc, elaborated.read(*cell, *input))?;
        assert_same(rt, b"", &found, wanted);
    }
    Ok(())
}

/// Adds a cell and the nets that it reads.
fn add_cell(alloc: Global, text: &mut Vec<u8>, cell: &Cell) -> Result<(), AllocError> {
    match cell {
        Cell::Gate { ins, .. } => add_list(alloc, text, b"gate", ins.as_slice()),
        Cell::Latch { d, .. } => add_list(alloc, text, b"latch", &[*d]),
    }
}

/// A flat design: its cells, its outputs and the number of its inputs.
fn flat_text(alloc: Global, flat: &Flat) -> Result<Vec<u8>, AllocError> {
    let mut text = Vec::new(alloc);
    for cell in flat.cells() {
        add_cell(alloc, &mut text, cell)?;
        text.push(b'|')?;
    }
    add_list(alloc, &mut text, b"outputs", flat.outputs())?;
    add_list(alloc, &mut text, b"|inputs", &[flat.inputs()])?;
    Ok(text)
}

/// The flat design of an elaborated one.
fn flattened(alloc: Global, elaborated: &Elaborated) -> Result<Vec<u8>, AllocError> {
    let Ok(flat) = flatten(alloc, elaborated, &[]) else {
        return Err(AllocError);
    };
    flat_text(alloc, &flat)
}

/// What is wanted of a design.
struct Expected {
    /// Instances and nets of them, and what drives these.
    drivers: &'static [(u32, &'static [u8], &'static [u8])],
    /// Cells and inputs of them, and what these read.
    reads: &'static [(u32, u32, &'static [u8])],
    /// The flat design.
    flat: &'static [u8],
}

/// Asserts what is wanted of an elaborated design.
fn assert_found(
    rt: &impl Abort,
    alloc: Global,
    elaborated: &Elaborated,
    wanted: &Expected,
) -> Result<(), AllocError> {
    assert_drivers(rt, alloc, elaborated, wanted.drivers)?;
    assert_reads(rt, alloc, elaborated, wanted.reads)?;
    let flat = flattened(alloc, elaborated)?;
    assert_same(rt, b"flat", &flat, wanted.flat);
    Ok(())
}

/// What is found of a text, and can be compared with what is wanted.
trait Found {
    /// Asserts that it is what is wanted.
    fn assert_is(
        &self,
        rt: &impl Abort,
        alloc: Global,
        wanted: &Expected,
    ) -> Result<(), AllocError>;
}

impl Found for Elaborated {
    fn assert_is(
        &self,
        rt: &impl Abort,
        alloc: Global,
        wanted: &Expected,
    ) -> Result<(), AllocError> {
        assert_found(rt, alloc, self, wanted)
    }
}

/// Asserts that something is found, and that it is what is wanted. It knows nothing of the type, since each step beside
/// an `Elaborated` takes long to prove.
fn assert_some<F: Found + Drop>(
    rt: &impl Abort,
    alloc: Global,
    text: &[u8],
    found: Option<F>,
    wanted: &Expected,
) -> Result<(), AllocError> {
    match found {
        Some(found) => found.assert_is(rt, alloc, wanted),
        None => {
            assert_same(rt, text, b"refused", b"elaborated");
            Ok(())
        }
    }
}

/// Asserts what is wanted of the design of a text that has no fault.
fn assert_text(
    rt: &impl Abort,
    alloc: Global,
    text: &[u8],
    wanted: &Expected,
) -> Result<(), AllocError> {
    assert_some(rt, alloc, text, elaborated(alloc, text), wanted)
}

/// What is wanted of the nested design.
const NESTED_EXPECTED: &Expected = &Expected {
    drivers: NESTED_DRIVERS,
    reads: &[],
    flat: b"gate 0|gate 1|latch 2|outputs 3|inputs 1",
};

#[test]
fn drivers_are_found_up_and_down(rt: HostRuntime) -> Result<(), Fail> {
    assert_text(&rt, rt.alloc(), NESTED, NESTED_EXPECTED)?;
    Ok(())
}

/// What is wanted of the twins: equal names of two instances are two nets.
const TWINS_EXPECTED: &Expected = &Expected {
    drivers: TWIN_DRIVERS,
    reads: TWIN_READS,
    flat: b"gate 0|latch 1|gate 2|latch 3|outputs 4|inputs 1",
};

#[test]
fn drivers_and_nets_are_those_of_their_instances(rt: HostRuntime) -> Result<(), Fail> {
    assert_text(&rt, rt.alloc(), TWINS, TWINS_EXPECTED)?;
    Ok(())
}

/// Asserts of instances and places of them which instances these are.
fn assert_children(
    rt: &impl Abort,
    text: &[u8],
    elaborated: Option<Elaborated>,
    table: &[(u32, u32, Option<u32>)],
) {
    let Some(elaborated) = elaborated else {
        return assert_same(rt, text, b"refused", b"elaborated");
    };
    for (instance, place, child) in table {
        assert!(rt; elaborated.child(*instance, *place) == *child);
    }
}

#[test]
fn each_place_of_an_instance_has_its_instance(rt: HostRuntime) -> Result<(), Fail> {
    const PLACES: &[(u32, u32, Option<u32>)] = &[
        (0, 0, None),
        (0, 1, Some(1)),
        (0, 2, Some(2)),
        (0, 3, None),
        (1, 1, None),
    ];
    assert_children(&rt, TWINS, elaborated(rt.alloc(), TWINS), PLACES);
    const NESTED_PLACES: &[(u32, u32, Option<u32>)] = &[
        (0, 1, Some(1)),
        (1, 1, Some(2)),
        (2, 1, None),
    ];
    assert_children(&rt, NESTED, elaborated(rt.alloc(), NESTED), NESTED_PLACES);
    Ok(())
}

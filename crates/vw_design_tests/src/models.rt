use crate::same::assert_same;
use std::alloc::{AllocError, Global};
use std::process::Abort;
use std::test::Fail;
use vw_blif::read;
use vw_design::Design;
use vw_models::{ModelOrder, Targets, models_reached, order_of, targets_of, unknown_model};
use vw_outside::Name;
use vw_samples::{add_list, add_number, add_words};

/// The line of an unknown model.
fn unknown(alloc: Global, line: u64) -> Result<Vec<u8>, AllocError> {
    let mut shown = b"unknown ".to_vec(alloc)?;
    add_number(alloc, &mut shown, line)?;
    Ok(shown)
}

/// An order of models.
fn order(alloc: Global, numbers: &[u32]) -> Result<Vec<u8>, AllocError> {
    let mut shown = Vec::new(alloc);
    add_list(alloc, &mut shown, b"order", numbers)?;
    Ok(shown)
}

/// A circle of models.
fn circle(alloc: Global, names: &[Name]) -> Result<Vec<u8>, AllocError> {
    let mut shown = b"circle".to_vec(alloc)?;
    add_words(&mut shown, names)?;
    Ok(shown)
}

/// What is found of a design: the line of an unknown model, or an order or a circle of the models that are reached.
fn look_at(alloc: Global, design: &Design) -> Result<Vec<u8>, AllocError> {
    let numbers = targets_of(alloc, design)?;
    let targets = Targets {
        design,
        numbers: &numbers,
    };
    let flags = models_reached(alloc, &targets)?;
    if let Some(line) = unknown_model(&targets, flags.as_slice()) {
        return unknown(alloc, line);
    }
    match order_of(alloc, &targets)? {
        ModelOrder::Order(numbers) => order(alloc, numbers.as_slice()),
        ModelOrder::Circle(names) => circle(alloc, names.as_slice()),
    }
}

/// What is found of the design of a text, or the message of its fault.
fn shown(alloc: Global, text: &[u8]) -> Result<Vec<u8>, AllocError> {
    match read(alloc, text) {
        Ok(design) => look_at(alloc, &design),
        Err(fault) => fault.text(alloc),
    }
}

/// Asserts of each text what is found of its design.
fn assert_all(rt: &impl Abort, alloc: Global, table: &[(&[u8], &[u8])]) -> Result<(), AllocError> {
    for (text, wanted) in table {
        let found = shown(alloc, text)?;
        assert_same(rt, text, &found, wanted);
    }
    Ok(())
}

/// Texts and the order of their models.
const ORDERS: &[(&[u8], &[u8])] = &[
    (
        b".model a\n.subckt b\n.subckt c\n.model b\n.subckt c\n.model c\n",
        b"order 2 1 0",
    ),
    // what is not reached is left out, whatever it places
    (
        b".model a\n.model b\n.subckt x\n.model c\n.subckt c\n",
        b"order 0",
    ),
];

#[test]
fn a_model_stands_behind_those_that_it_places(rt: HostRuntime) -> Result<(), Fail> {
    assert_all(&rt, rt.alloc(), ORDERS)?;
    Ok(())
}

#[test]
fn a_circle_begins_with_the_first_of_the_file(rt: HostRuntime) -> Result<(), Fail> {
    let text = b".model a\n.subckt c\n.model b\n.subckt c\n.model c\n.subckt b\n";
    assert_all(&rt, rt.alloc(), &[(text, b"circle b c")])?;
    Ok(())
}

#[test]
fn a_reached_model_that_is_unknown_has_its_line(rt: HostRuntime) -> Result<(), Fail> {
    let text = b".model a\n.subckt b\n.model b\n.subckt x\n.model c\n.subckt c\n";
    assert_all(&rt, rt.alloc(), &[(text, b"unknown 4")])?;
    Ok(())
}

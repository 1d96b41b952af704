ghost use Rattle.vw_design.specs.ModelNumbers.{AreModelsReached};

use crate::same::assert_same;
use std::alloc::{AllocError, Global};
use std::process::Abort;
use std::test::Fail;
use vw_blif::read;
use vw_design::Design;
use vw_models::{
    FormalAt, OutputOf, Targets, both_ways, models_reached, targets_of, unbound_input,
    unknown_formal,
};
use vw_samples::{add_behind, add_number};

/// A formal with its line.
fn formal_text(alloc: Global, kind: &[u8], found: &FormalAt) -> Result<Vec<u8>, AllocError> {
    let mut shown = kind.to_vec(alloc)?;
    add_number(alloc, &mut shown, found.line)?;
    add_behind(&mut shown, b' ', found.formal.as_slice())?;
    Ok(shown)
}

/// An output with its model.
fn output_text(alloc: Global, kind: &[u8], found: &OutputOf) -> Result<Vec<u8>, AllocError> {
    let mut shown = kind.to_vec(alloc)?;
    shown.extend_from_slice(found.model.as_slice())?;
    add_behind(&mut shown, b' ', found.output.as_slice())?;
    Ok(shown)
}

/// The first fault of the bindings of a design, with the tables of its models.
fn fault_at(alloc: Global, targets: &Targets, flags: &[bool]) -> Result<Vec<u8>, AllocError>
    requires { AreModelsReached targets.now.design.now flags.now }
{
    if let Some(found) = unknown_formal(alloc, targets, flags)? {
        return formal_text(alloc, b"unknown ", &found);
    }
    if let Some(found) = unbound_input(alloc, targets, flags)? {
        return formal_text(alloc, b"unbound ", &found);
    }
    match both_ways(alloc, targets, flags)? {
        Some(found) => output_text(alloc, b"both ways ", &found),
        None => b"no fault".to_vec(alloc),
    }
}

/// The first fault of the bindings of a design: an unknown formal, else an input that is unbound, else an output that
/// is an input too.
fn first_fault(alloc: Global, design: &Design) -> Result<Vec<u8>, AllocError> {
    let numbers = targets_of(alloc, design)?;
    let targets = Targets {
        design,
        numbers: &numbers,
    };
    let flags = models_reached(alloc, &targets)?;
    fault_at(alloc, &targets, flags.as_slice())
}

/// The first fault of the bindings of a text, or the message of the text's own fault.
fn shown(alloc: Global, text: &[u8]) -> Result<Vec<u8>, AllocError> {
    match read(alloc, text) {
        Ok(design) => first_fault(alloc, &design),
        Err(fault) => fault.text(alloc),
    }
}

/// Asserts of a text what the first fault of its bindings is.
fn assert_shown(
    rt: &impl Abort,
    alloc: Global,
    text: &[u8],
    wanted: &[u8],
) -> Result<(), AllocError> {
    let found = shown(alloc, text)?;
    assert_same(rt, text, &found, wanted);
    Ok(())
}

#[test]
fn a_formal_that_no_port_has_is_unknown(rt: HostRuntime) -> Result<(), Fail> {
    let text = b".model a\n.subckt b z=n\n.model b\n.inputs x\n.outputs y\n";
    assert_shown(&rt, rt.alloc(), text, b"unknown 2 z")?;
    Ok(())
}

#[test]
fn an_input_without_a_binding_is_unbound(rt: HostRuntime) -> Result<(), Fail> {
    let text = b".model a\n.subckt b y=n\n.model b\n.inputs x\n.outputs y\n";
    assert_shown(&rt, rt.alloc(), text, b"unbound 2 x")?;
    Ok(())
}

#[test]
fn a_port_of_both_kinds_goes_both_ways(rt: HostRuntime) -> Result<(), Fail> {
    let text = b".model a\n.subckt b x=n\n.model b\n.inputs x\n.outputs x\n";
    assert_shown(&rt, rt.alloc(), text, b"both ways b x")?;
    Ok(())
}

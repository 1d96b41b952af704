use crate::blif::{add_bind, add_model};
use crate::same::assert_same;
use std::alloc::{AllocError, Global};
use std::test::Fail;
use vw_design::{Bind, Edge, Item, Model};
use vw_net::{Init, Sequence};
use vw_outside::Name;
use vw_samples::name;

/// A list of one name with these bytes.
fn names(alloc: Global, bytes: &[u8]) -> Result<Sequence<Name>, AllocError> {
    let mut names = Vec::new(alloc);
    names.push(name(alloc, bytes)?)?;
    Ok(Sequence::of(names))
}

/// A latch from `a` to `b`, with the clock `c`.
fn latch(alloc: Global) -> Result<Item, AllocError> {
    Ok(Item::Latch {
        line: 5,
        d: name(alloc, b"a")?,
        q: name(alloc, b"b")?,
        edge: Edge::Fall,
        control: Some(name(alloc, b"c")?),
        init: Init::Free,
    })
}

/// A list of one latch.
fn latches(alloc: Global) -> Result<Sequence<Item>, AllocError> {
    let mut items = Vec::new(alloc);
    items.push(latch(alloc)?)?;
    Ok(Sequence::of(items))
}

/// A model with one port of each kind, and one latch.
fn model(alloc: Global) -> Result<Model, AllocError> {
    Ok(Model::make(
        name(alloc, b"top")?,
        names(alloc, b"a")?,
        names(alloc, b"b")?,
        names(alloc, b"c")?,
        latches(alloc)?,
    ))
}

/// A model written plainly.
fn model_text(alloc: Global, model: &Model) -> Result<Vec<u8>, AllocError> {
    let mut shown = Vec::new(alloc);
    add_model(alloc, &mut shown, model)?;
    Ok(shown)
}

/// That model written plainly.
fn made_text(alloc: Global) -> Result<Vec<u8>, AllocError> {
    let model = model(alloc)?;
    model_text(alloc, &model)
}

#[test]
fn a_model_gives_back_its_parts(rt: HostRuntime) -> Result<(), Fail> {
    let found = made_text(rt.alloc())?;
    assert_same(&rt, b"top", &found, b"top a; b; c|5 a~bfc?|");
    Ok(())
}

/// A binding of `port` to `net`.
fn binding(alloc: Global) -> Result<Bind, AllocError> {
    Ok(Bind::make(name(alloc, b"port")?, name(alloc, b"net")?))
}

/// The binding written plainly.
fn binding_text(alloc: Global) -> Result<Vec<u8>, AllocError> {
    let mut shown = Vec::new(alloc);
    add_bind(&mut shown, &binding(alloc)?)?;
    Ok(shown)
}

#[test]
fn a_binding_gives_back_its_names(rt: HostRuntime) -> Result<(), Fail> {
    let found = binding_text(rt.alloc())?;
    assert_same(&rt, b"port", &found, b"port<net");
    Ok(())
}

use crate::claims::claims_at;
use crate::same::assert_same;
use std::alloc::{AllocError, Global};
use std::test::Fail;
use vw_blif::read;
use vw_design::Design;
use vw_drivers::{ModelClaims, ModelNames, PlacedNames, Way, names_of};
use vw_models::{Targets, targets_of};
use vw_samples::{add_numbers, add_option, add_options};

/// A gate, a placed model and a latch whose control nothing drives; the placed model is a gate.
const TEXT: &[u8] =
    b".model a\n.inputs x\n.outputs y\n.names x n\n.subckt b p=n q=m\n.latch m y re k 0\n\
.model b\n.inputs p\n.outputs q\n.names p q\n";

/// The claims of the first two models of a design.
fn all_claims(alloc: Global, design: &Design) -> Result<Vec<ModelClaims>, Fail> {
    let mut all = Vec::new(alloc);
    for model in 0..2 {
        all.push(claims_at(alloc, design, model)?)?;
    }
    Ok(all)
}

/// The names of the models of a design that has two.
fn names_in(alloc: Global, design: &Design) -> Result<Vec<ModelNames>, Fail> {
    let claims = all_claims(alloc, design)?;
    if claims.len() != design.models().len() {
        return Err("not two models".into());
    }
    let numbers = targets_of(alloc, design)?;
    let targets = Targets {
        design,
        numbers: &numbers,
    };
    Ok(names_of(alloc, &targets, claims.as_slice())?)
}

/// The names of both models of a text.
fn names_of_text(alloc: Global, text: &[u8]) -> Result<Vec<ModelNames>, Fail> {
    match read(alloc, text) {
        Ok(design) => names_in(alloc, &design),
        Err(_) => Err("no design".into()),
    }
}

/// What the items of a model read, with `|` behind each item.
fn add_reads(alloc: Global, text: &mut Vec<u8>, names: &ModelNames) -> Result<(), AllocError> {
    for reads in names.reads() {
        add_options(alloc, text, reads.as_slice())?;
        text.push(b'|')?;
    }
    Ok(())
}

/// Adds a way: for an input, its claim, `<` and that of its actual; for an output, `>` and its claim.
fn add_way(alloc: Global, text: &mut Vec<u8>, way: Way) -> Result<(), AllocError> {
    match way {
        Way::Port { port, actual } => {
            add_numbers(alloc, text, &[port])?;
            text.push(b'<')?;
            add_option(alloc, text, actual)
        }
        Way::Output(claim) => {
            text.extend_from_slice(b" >")?;
            add_option(alloc, text, claim)
        }
    }
}

/// Adds an item that places a model: its number, its ways and `|`.
fn add_placed(alloc: Global, text: &mut Vec<u8>, placed: &PlacedNames) -> Result<(), AllocError> {
    add_option(alloc, text, Some(placed.item))?;
    for way in placed.ways.as_slice() {
        add_way(alloc, text, *way)?;
    }
    text.push(b'|')?;
    Ok(())
}

/// The names of models: what their items read, `/`, and which items place models, with `;` behind each model.
fn shown(alloc: Global, models: &[ModelNames]) -> Result<Vec<u8>, AllocError> {
    let mut text = Vec::new(alloc);
    for names in models {
        add_reads(alloc, &mut text, names)?;
        text.push(b'/')?;
        for placed in names.placed() {
            add_placed(alloc, &mut text, placed)?;
        }
        text.push(b';')?;
    }
    Ok(text)
}

#[test]
fn reads_have_the_numbers_of_claims_and_bindings_lead_to_them(rt: HostRuntime) -> Result<(), Fail> {
    let names = names_of_text(rt.alloc(), TEXT)?;
    let found = shown(rt.alloc(), &names)?;
    // an input leads to its actual and an output inside; nothing drives the control of the latch
    assert_same(&rt, TEXT, &found, b" 0|| 2 -|/1 0<1 >1|; 0|/;");
    Ok(())
}

use crate::same::assert_same;
use std::alloc::{AllocError, Global};
use std::process::Abort;
use std::test::Fail;
use vw_blif::read;
use vw_design::Design;
use vw_drivers::{Claim, ModelClaims, Outputs, claims_of, output_sets};
use vw_models::{Targets, targets_of};
use vw_outside::Name;
use vw_samples::{add_behind, add_number, add_numbers, name};

/// The names `a` and `b`.
fn two_names(alloc: Global) -> Result<Vec<Name>, AllocError> {
    let mut names = Vec::new(alloc);
    names.push(name(alloc, b"a")?)?;
    names.push(name(alloc, b"b")?)?;
    Ok(names)
}

#[test]
fn a_set_has_its_names(rt: HostRuntime) -> Result<(), Fail> {
    let names = two_names(rt.alloc())?;
    let outputs = Outputs::of(rt.alloc(), &names)?;
    assert!(rt; outputs.has(b"a") && outputs.has(b"b") && !outputs.has(b"c"));
    Ok(())
}

/// The claims of a model of a design, by its number.
pub fn claims_at(alloc: Global, design: &Design, model: u32) -> Result<ModelClaims, Fail> {
    if design.models().len() <= model as usize {
        return Err("no model".into());
    }
    let outputs = output_sets(alloc, design)?;
    let numbers = targets_of(alloc, design)?;
    let targets = Targets {
        design,
        numbers: &numbers,
    };
    Ok(claims_of(alloc, &targets, outputs.as_slice(), model)?)
}

/// Adds what claims a net.
fn add_claim(alloc: Global, text: &mut Vec<u8>, claim: Option<Claim>) -> Result<(), AllocError> {
    match claim {
        Some(Claim::Port) => text.extend_from_slice(b" port"),
        Some(Claim::Driven(item)) => add_numbers(alloc, text, &[item]),
        _ => text.extend_from_slice(b" other"),
    }
}

/// The number of a net and what claims it, or `none`.
fn claim_text(alloc: Global, claims: &ModelClaims, net: &[u8]) -> Result<Vec<u8>, AllocError> {
    let Some(number) = claims.first(net) else {
        return b"none".to_vec(alloc);
    };
    let mut text = Vec::new(alloc);
    add_number(alloc, &mut text, u64::from(number))?;
    add_claim(alloc, &mut text, claims.claim(number))?;
    Ok(text)
}

/// The number of claims, and the item that claims a net again with this net.
fn again_text(alloc: Global, claims: &ModelClaims) -> Result<Vec<u8>, AllocError> {
    let mut text = Vec::new(alloc);
    add_number(alloc, &mut text, claims.count() as u64)?;
    if let Some(again) = claims.again() {
        add_numbers(alloc, &mut text, &[again.item()])?;
        add_behind(&mut text, b' ', again.name().as_slice())?;
    }
    Ok(text)
}

/// Nets with their numbers, and `port` or the number of the item that drives them.
const NETS: &[(&[u8], &[u8])] = &[
    (b"a", b"0 port"),
    (b"q", b"1 0"),
    (b"r", b"2 1"),
    (b"c", b"none"),
];

/// Asserts of each net what claims it.
fn assert_all(
    rt: &impl Abort,
    alloc: Global,
    claims: &ModelClaims,
    table: &[(&[u8], &[u8])],
) -> Result<(), AllocError> {
    for (net, wanted) in table {
        let found = claim_text(alloc, claims, net)?;
        assert_same(rt, net, &found, wanted);
    }
    Ok(())
}

/// The claims of the one model of a text.
fn claims_of_text(alloc: Global, text: &[u8]) -> Result<ModelClaims, Fail> {
    match read(alloc, text) {
        Ok(design) => claims_at(alloc, &design, 0),
        Err(_) => Err("no design".into()),
    }
}

/// Asserts what claims each of these nets, how many nets are claimed, and which item claims a net again.
fn assert_claims(rt: &impl Abort, alloc: Global, claims: &ModelClaims) -> Result<(), Fail> {
    assert_all(rt, alloc, claims, NETS)?;
    // three nets are claimed, and item 2 claims `a` again
    let again = again_text(alloc, claims)?;
    assert_same(rt, b"again", &again, b"3 2 a");
    Ok(())
}

#[test]
fn the_first_claims_keep_their_order(rt: HostRuntime) -> Result<(), Fail> {
    let text = b".model m\n.inputs a\n.names a q\n.latch q r\n.names q a\n";
    let claims = claims_of_text(rt.alloc(), text)?;
    assert_claims(&rt, rt.alloc(), &claims)
}

//! Texts of netlists, worked out by hand.
use std::alloc::{AllocError, Global};
use std::process::Abort;
use std::test::Fail;
use vw_listing::netlist_text;
use vw_net::{Cell, Flat, Init, Sequence};
use vw_outside::Name;

/// Names of these bytes.
fn names(alloc: Global, words: &[&str]) -> Result<Vec<Name>, AllocError> {
    let mut list = Vec::new(alloc);
    for word in words {
        list.push(Name::of(word.as_bytes().to_vec(alloc)?))?;
    }
    Ok(list)
}

/// The gate without rows that reads these nets, so that it is always 0.
fn gate(alloc: Global, ins: &[u32]) -> Result<Cell, Fail> {
    let ins = Sequence::of(ins.to_vec(alloc)?);
    let rows = Sequence::of(Vec::new(alloc));
    Ok(Cell::gate(alloc, ins, true, rows)?.ok_or("no gate")?)
}

/// Two columns, a gate that reads the latch, the second column and the latch again, the latch, which reads the gate, and a gate
/// that reads nothing; with three outputs.
fn netlist(alloc: Global) -> Result<Flat, Fail> {
    let mut cells = Vec::new(alloc);
    cells.push(gate(alloc, &[3, 1, 3])?)?;
    cells.push(Cell::Latch {
        d: 2,
        init: Init::Zero,
    })?;
    cells.push(gate(alloc, &[])?)?;
    let outputs = Sequence::of([3, 0, 2].to_vec(alloc)?);
    Ok(Flat::checked(2, Sequence::of(cells), outputs).ok_or("no netlist")?)
}

/// Asserts the text of this netlist, whose first outputs have these names, and the others those of the probes.
fn is_text(
    rt: &impl Abort,
    alloc: Global,
    outputs: &[&str],
    probes: &[&str],
    wanted: &str,
) -> Result<(), Fail> {
    let flat = netlist(alloc)?;
    let nets = names(alloc, &["a", "b", "1/x", "1/q", "0"])?;
    let outputs = names(alloc, outputs)?;
    let probes = names(alloc, probes)?;
    if nets.len() != flat.inputs() as usize + flat.cells().len()
        || outputs.len() > 4
        || probes.len() > 4
        || outputs.len() + probes.len() != flat.outputs().len()
    {
        return Err("other counts".into());
    }
    let text = netlist_text(alloc, &flat, &nets, &outputs, &probes)?;
    assert!(rt; text.as_slice() == wanted.as_bytes());
    Ok(())
}

#[test]
fn cells_have_their_nets_and_probes_are_the_last_outputs(rt: HostRuntime) -> Result<(), Fail> {
    is_text(
        &rt,
        rt.alloc(),
        &["q", "a"],
        &["1/x"],
        "nets 1 2 3 3\n\
         column 0 a\n\
         column 1 b\n\
         gate 2 1/x 3 1 3\n\
         latch 3 1/q 2\n\
         gate 4 0\n\
         output 3 q\n\
         output 0 a\n\
         output 2 1/x\n\
         end\n",
    )
}

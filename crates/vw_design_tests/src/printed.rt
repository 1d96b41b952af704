use crate::same::assert_same;
use std::alloc::{AllocError, Global};
use std::process::Abort;
use std::test::Fail;
use vw_front::{NamedNetlist, named_netlist_of_text};
use vw_samples::{add_numbers, add_words, name};

/// Two stages that invert what they store, behind a gate. `ck` is a clock port, and no column.
const STAGES: &[u8] = b".model top\n.inputs a ck b\n.outputs y q\n.names a b m\n11 1\n\
.subckt stage p=m c=ck q=y\n.subckt stage p=b c=ck q=q\n\
.model stage\n.inputs p c\n.outputs q\n.subckt invert i=p o=n\n.latch n q re c 0\n\
.model invert\n.inputs i\n.outputs o\n.names i o\n0 1\n";

/// Adds the names of the nets of a netlist, by their numbers.
fn add_nets(text: &mut Vec<u8>, named: &NamedNetlist) -> Result<(), AllocError> {
    let flat = named.ordered().flat();
    for net in 0..flat.inputs() + flat.cells().len() as u32 {
        text.push(b' ')?;
        text.extend_from_slice(named.net_name(net).as_slice())?;
    }
    Ok(())
}

/// The names of the signals of a wave with this probe, each behind a blank.
fn signals(alloc: Global, named: &NamedNetlist, probe: &[u8]) -> Result<Vec<u8>, AllocError> {
    let probe = name(alloc, probe)?;
    let mut text = Vec::new(alloc);
    add_words(&mut text, &named.signals(alloc, &[probe])?)?;
    Ok(text)
}

/// The names of a netlist: those of its nets, of its outputs, and of the signals of a wave with a probe.
fn names_text(alloc: Global, named: &NamedNetlist, probe: &[u8]) -> Result<Vec<u8>, AllocError> {
    let mut text = b"nets".to_vec(alloc)?;
    add_nets(&mut text, named)?;
    text.extend_from_slice(b"|outputs")?;
    add_words(&mut text, named.outputs())?;
    add_numbers(alloc, &mut text, named.ordered().flat().outputs())?;
    text.extend_from_slice(b"|signals")?;
    text.extend_from_slice(&signals(alloc, named, probe)?)?;
    Ok(text)
}

/// The names of the netlist of a design with one probe, or the line of its fault.
fn shown(alloc: Global, design: &[u8], probe: &[u8]) -> Result<Vec<u8>, AllocError> {
    match named_netlist_of_text(alloc, design, &[name(alloc, probe)?]) {
        Ok(named) => names_text(alloc, &named, probe),
        Err(fault) => fault.text(alloc),
    }
}

#[test]
fn nets_have_the_names_of_their_drivers_and_outputs_their_own(rt: HostRuntime) -> Result<(), Fail> {
    let found = shown(rt.alloc(), STAGES, b"1/n")?;
    assert_same(
        &rt,
        STAGES,
        &found,
        b"nets a b m 1/1/o 1/q 2/1/o 2/q|outputs y q 4 6 3|signals y q 1/n 1/q 2/q",
    );
    Ok(())
}

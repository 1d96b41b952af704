//! Emitted boards of designs, for tests.
use std::alloc::Global;
use std::test::Fail;
use vw_emit::{EmitFault, emit};
use vw_samples::{Texts, planned};

/// A latch that turns at each clock. It is on chip 2, its bit goes to the host by way of chip 1, and takes three microcycles
/// on the first way. Another latch is free, and a table without rows is an off-set.
pub const SLOW: Texts = Texts {
    design: ".model m\n.inputs i\n.outputs q f k\n.names q d\n0 1\n.latch d q 1\n.latch f f 3\n.names q f k\n.end\n",
    board: "board 2\nchips 2\ncells 4\nsettle 0\npins 8\nlink 0 1 2 1\nlink 1 0 2 1\nlink 1 2 2 1\nlink 2 1 2 3\n",
    plan: "plan 1 4 3 5\nchips 2 2 2 2\nwire 2 0 2\nhop 2 1 0 0\nhop 1 0 0 3\nwire 3 0 2\nhop 2 1 1 0\nhop 1 0 1 3\nwire 4 0 2\nhop 2 1 0 1\nhop 1 0 0 4\nend\n",
};

/// So many things, as a text.
fn counted(alloc: Global, count: u128, things: &str) -> Result<Vec<u8>, Fail> {
    Ok(format!(in alloc; "{count} {things}")?.into_bytes())
}

/// An emitted board, or the line of why it isn't there.
fn told(alloc: Global, emitted: Result<Vec<u8>, EmitFault>) -> Result<Vec<u8>, Fail> {
    match emitted {
        Ok(text) => Ok(text),
        Err(EmitFault::TooManyCells(cells)) => counted(alloc, cells, "cells"),
        Err(EmitFault::TooManyOutputs(outputs)) => counted(alloc, u128::from(outputs), "outputs"),
        Err(EmitFault::TooLong(bytes)) => counted(alloc, bytes, "bytes"),
        Err(EmitFault::NoMemory) => Err("no memory".into()),
    }
}

/// The emitted board of these texts, or the line of why it isn't there.
pub fn emitted(alloc: Global, texts: &Texts) -> Result<Vec<u8>, Fail> {
    let checked = planned(alloc, texts)?;
    told(alloc, emit(alloc, &checked))
}

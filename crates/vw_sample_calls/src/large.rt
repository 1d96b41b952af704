//! Runs of designs that are large, spelled in pieces.
use crate::call::End;
use crate::ends::run_ends;
use std::alloc::Global;
use std::test::Fail;
use vw_samples::{Piece, repeated, spelled};

/// A run of a design over a stimulus, and how it ends, each in pieces.
#[derive(Clone, Copy)]
pub struct Large<'a> {
    /// What tells it from the others.
    pub on: &'a str,
    pub design: &'a [Piece<'a>],
    pub stimulus: &'a [Piece<'a>],
    /// How many times the stimulus is spelled.
    pub times: u32,
    pub status: u8,
    pub out: &'a [Piece<'a>],
    pub err: &'a [Piece<'a>],
}

/// A run over no rows that is accepted, and one that is refused.
pub const DONE: Large = Large {
    on: "",
    design: &[],
    stimulus: &[],
    times: 1,
    status: 0,
    out: &[],
    err: &[],
};

pub const REFUSED: Large = Large { status: 1, ..DONE };

/// Fails unless the run of a large design ends as it says.
fn large_design_ends(alloc: Global, run: &Large) -> Result<(), Fail> {
    let design = spelled(alloc, run.design)?;
    let stimulus = repeated(alloc, run.times, run.stimulus)?;
    let out = spelled(alloc, run.out)?;
    let err = spelled(alloc, run.err)?;
    let end = End {
        status: run.status,
        out: out.as_str(),
        err: err.as_str(),
    };
    run_ends(alloc, design.as_str(), stimulus.as_str(), run.on, end)
}

/// Fails unless the runs of these designs end as they say.
pub fn large_designs_end(alloc: Global, table: &[Large]) -> Result<(), Fail> {
    for run in table {
        large_design_ends(alloc, run)?;
    }
    Ok(())
}

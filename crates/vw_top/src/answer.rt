//! The answer of a run, as a command's.
ghost use Rattle.std.specs.Prelude.{◌≡◌};
ghost use Rattle.vw_top.specs.Stages.{run_answer};

use vw_courses::{File, Reason, Unfinished};
use vw_trace::RunFault;

/// The answer of a command that ran over its stimulus, or that stopped while it did.
pub fn run_answer(written: Result<(), RunFault>) -> Result<(), Unfinished>
    ensures { result ≡ run_answer written }
{
    match written {
        Ok(()) => Ok(()),
        Err(RunFault::ReadFault) => Err(Unfinished::ReadFault(File::Stimulus)),
        Err(RunFault::WriteFault) => Err(Unfinished::WriteFault),
        Err(RunFault::Stimulus(fault)) => Err(Unfinished::Refused(Reason::Stimulus(fault))),
        Err(RunFault::NoMemory) => Err(Unfinished::NoMemory),
    }
}

ghost use Rattle.std.specs.Prelude.{◌≡◌, IfOk};

use std::alloc::{AllocError, Global};
use vw_outside::Unwritten;
use vw_rows::StimFault;

/// Why a run over a checked stimulus wasn't finished.
#[derive(Clone, Copy, Debug, PartialEq, Eq)]
pub enum RunFault {
    /// A read of the stimulus failed, and the fault was counted.
    ReadFault,
    /// A write failed, and the fault was counted.
    WriteFault,
    /// The stimulus was read again, and has this fault. It comes only where nothing is told of its text, which may have
    /// changed since it was checked.
    Stimulus(StimFault),
    NoMemory,
}

impl From<AllocError> for RunFault {
    ghost use Rattle.vw_trace.specs.declared.fault.RunFault.TheVariants.{NoMemory};

    ghost from_gives = { λ _ fault. fault ≡ NoMemory };

    fn from(_: AllocError) -> Self {
        RunFault::NoMemory
    }
}

impl From<Unwritten> for RunFault {
    ghost use Rattle.vw_trace.specs.RunFaults.{run_fault_of};

    ghost from_gives = { λ unwritten fault. fault ≡ run_fault_of unwritten };

    fn from(unwritten: Unwritten) -> Self {
        match unwritten {
            Unwritten::WriteFault => RunFault::WriteFault,
            Unwritten::NoMemory => RunFault::NoMemory,
        }
    }
}

impl From<StimFault> for RunFault {
    ghost use Rattle.vw_trace.specs.RunFaults.{run_fault_of_rows};

    ghost from_gives = { λ stim fault. fault ≡ run_fault_of_rows stim };

    fn from(fault: StimFault) -> Self {
        match fault {
            StimFault::ReadFault => RunFault::ReadFault,
            StimFault::NoMemory => RunFault::NoMemory,
            fault => RunFault::Stimulus(fault),
        }
    }
}

impl RunFault {
    ghost use Rattle.vw_trace.specs.Messages.{fault_text};

    /// The message line, with the end of the line.
    pub fn text(&self, alloc: Global) -> Result<Vec<u8>, AllocError>
        ensures { IfOk result (λ line. line.items ≡ fault_text self.now) }
    {
        match self {
            RunFault::ReadFault => b"read fault: stimulus\n".to_vec(alloc),
            RunFault::WriteFault => b"write fault\n".to_vec(alloc),
            RunFault::Stimulus(fault) => fault.text(alloc),
            RunFault::NoMemory => b"out of memory\n".to_vec(alloc),
        }
    }
}

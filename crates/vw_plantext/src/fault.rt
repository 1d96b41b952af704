ghost use Rattle.std.specs.Prelude.{◌≡◌, IfOk};

use std::alloc::{AllocError, AllocFailed, Global};
use thiserror::Error;
use vw_text::numbered_line;

/// Why a text is no plan. Lines are numbered from 1.
#[derive(Clone, Copy, Debug, PartialEq, Eq, Error)]
pub enum PlanTextFault {
    /// The text has more than 67,108,864 bytes.
    #[error("text longer than 67108864 bytes")]
    TooLarge,
    /// The line is the first that can't stand there behind the lines before it.
    #[error("line {0}")]
    BadLine(u64),
    #[error("out of memory")]
    NoMemory,
}

impl From<AllocError> for PlanTextFault {
    ghost use Rattle.vw_plantext.specs.declared.fault.PlanTextFault.TheVariants.{NoMemory};

    ghost from_gives = { λ _ e. e ≡ NoMemory };

    fn from(_: AllocError) -> Self {
        PlanTextFault::NoMemory
    }
}

impl<T: Drop> From<AllocFailed<T>> for PlanTextFault {
    ghost use Rattle.vw_plantext.specs.declared.fault.PlanTextFault.TheVariants.{NoMemory};

    ghost from_gives = { λ _ e. e ≡ NoMemory };

    fn from(_: AllocFailed<T>) -> Self {
        PlanTextFault::NoMemory
    }
}

impl PlanTextFault {
    ghost use Rattle.vw_plantext.specs.Messages.{fault_text};

    /// The message line, with the end of the line.
    pub fn text(&self, alloc: Global) -> Result<Vec<u8>, AllocError>
        ensures { IfOk result (λ line. line.items ≡ fault_text self.now) }
    {
        match *self {
            PlanTextFault::TooLarge => b"plan 1: text longer than 67108864 bytes\n".to_vec(alloc),
            PlanTextFault::BadLine(number) => numbered_line(alloc, "plan 2: line ", number, ""),
            PlanTextFault::NoMemory => b"out of memory\n".to_vec(alloc),
        }
    }
}

ghost use Rattle.std.specs.Prelude.{◌≡◌};

use crate::sink::Failed;
use std::alloc::AllocError;

/// Why a text wasn't written whole: a write failed, and the fault was counted, or memory ran out.
#[derive(Clone, Copy, Debug, PartialEq, Eq)]
pub enum Unwritten {
    WriteFault,
    NoMemory,
}

impl From<AllocError> for Unwritten {
    ghost use Rattle.vw_outside.specs.declared.unwritten.Unwritten.TheVariants.{NoMemory};

    ghost from_gives = { λ _ unwritten. unwritten ≡ NoMemory };

    fn from(_: AllocError) -> Self {
        Unwritten::NoMemory
    }
}

impl From<Failed> for Unwritten {
    ghost use Rattle.vw_outside.specs.declared.unwritten.Unwritten.TheVariants.{WriteFault};

    ghost from_gives = { λ _ unwritten. unwritten ≡ WriteFault };

    fn from(_: Failed) -> Self {
        Unwritten::WriteFault
    }
}

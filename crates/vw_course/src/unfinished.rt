ghost use Rattle.std.specs.Prelude.{◌≡◌};

use std::alloc::AllocError;
use vw_outside::Unwritten;

/// Why a command wasn't carried out: the outside stopped it, or it refused its words or files. `F` is a file of a
/// command, by its part in it; `R` is a reason to refuse.
#[derive(Drop)]
pub enum Unfinished<F, R> {
    /// A read of this file failed.
    ReadFault(F),
    /// A write to out failed.
    WriteFault,
    NoMemory,
    /// The words or the files are refused, for this reason.
    Refused(R),
}

impl<F, R> From<AllocError> for Unfinished<F, R> {
    ghost use Rattle.vw_course.specs.declared.unfinished.Unfinished.TheVariants.{NoMemory};

    ghost from_gives = { λ _ unfinished. unfinished ≡ NoMemory };

    fn from(_: AllocError) -> Self {
        Unfinished::NoMemory
    }
}

impl<F, R> From<Unwritten> for Unfinished<F, R> {
    ghost use Rattle.vw_course.specs.Stages.{unfinished_by};

    ghost from_gives = { λ unwritten unfinished. unfinished ≡ unfinished_by unwritten };

    fn from(unwritten: Unwritten) -> Self {
        match unwritten {
            Unwritten::WriteFault => Unfinished::WriteFault,
            Unwritten::NoMemory => Unfinished::NoMemory,
        }
    }
}

ghost use Rattle.std.specs.Prelude.{◌≡◌, IfOk};
ghost use Rattle.vw_resume.specs.Messages.{fault_text};
ghost use Rattle.vw_resume.specs.declared.fault.StateFault.TheVariants.{TooFewClocks, WrongLatches};

use std::alloc::{AllocError, AllocFailed, Global};
use thiserror::Error;
use vw_text::numbered_line;

/// Why no run goes on from a state.
#[derive(Clone, Copy, Debug, PartialEq, Eq, Error)]
pub enum StateFault {
    /// The text spells no state.
    #[error("bad text")]
    BadText,
    /// It spells one with so many latches, and so many were wanted.
    #[error("{0} latches, wanted {1}")]
    WrongLatches(u32, u32),
    /// The clock of the state and the clocks of the stimulus come to so many, more than 4,294,967,295. No text is refused
    /// for it; who goes on from a state looks for it.
    #[error("{0} clocks")]
    TooManyClocks(u64),
    /// The stimulus has so many clocks, and the state comes after so many. No text is refused for it; who replays a stimulus
    /// from a state on looks for it.
    #[error("{0} clocks, wanted {1}")]
    TooFewClocks(u64, u64),
    #[error("out of memory")]
    NoMemory,
}

impl From<AllocError> for StateFault {
    ghost use Rattle.vw_resume.specs.declared.fault.StateFault.TheVariants.{NoMemory};

    ghost from_gives = { λ _ e. e ≡ NoMemory };

    fn from(_: AllocError) -> Self {
        StateFault::NoMemory
    }
}

impl<T: Drop> From<AllocFailed<T>> for StateFault {
    ghost use Rattle.vw_resume.specs.declared.fault.StateFault.TheVariants.{NoMemory};

    ghost from_gives = { λ _ e. e ≡ NoMemory };

    fn from(_: AllocFailed<T>) -> Self {
        StateFault::NoMemory
    }
}

/// The line of a wrong number of latches.
fn latches_line(alloc: Global, found: u32, wanted: u32) -> Result<Vec<u8>, AllocError>
    ensures { IfOk result (λ line. line.items ≡ fault_text (WrongLatches found wanted)) }
{
    Ok(format!(in alloc; "state 2: {found} latches, wanted {wanted}\n")?.into_bytes())
}

/// The line of a stimulus with too few clocks.
fn clocks_line(alloc: Global, found: u64, wanted: u64) -> Result<Vec<u8>, AllocError>
    ensures { IfOk result (λ line. line.items ≡ fault_text (TooFewClocks found wanted)) }
{
    Ok(format!(in alloc; "state 3: {found} clocks, wanted {wanted}\n")?.into_bytes())
}

impl StateFault {
    ghost use Rattle.vw_resume.specs.Messages.{fault_text};

    /// The message line, with the end of the line.
    pub fn text(&self, alloc: Global) -> Result<Vec<u8>, AllocError>
        ensures { IfOk result (λ line. line.items ≡ fault_text self.now) }
    {
        match *self {
            StateFault::BadText => b"state 1: bad text\n".to_vec(alloc),
            StateFault::WrongLatches(found, wanted) => latches_line(alloc, found, wanted),
            StateFault::TooManyClocks(clocks) => numbered_line(
                alloc,
                "state 3: ",
                clocks,
                " clocks",
            ),
            StateFault::TooFewClocks(found, wanted) => clocks_line(alloc, found, wanted),
            StateFault::NoMemory => b"out of memory\n".to_vec(alloc),
        }
    }
}

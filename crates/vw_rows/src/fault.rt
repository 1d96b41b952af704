ghost use Rattle.std.specs.Prelude.{◌≡◌, IfOk};
ghost use Rattle.vw_rows.specs.declared.fault.StimFault.TheVariants.{WrongWidth};
ghost use Rattle.vw_rows.specs.Messages.{fault_text};

use std::alloc::{AllocError, AllocFailed, Global};
use thiserror::Error;
use vw_text::numbered_line;

/// Why a stimulus was not read. Lines are numbered from 1.
#[derive(Clone, Copy, Debug, PartialEq, Eq, Error)]
pub enum StimFault {
    /// The text has more than 1,073,741,824 bytes.
    #[error("text longer than 1073741824 bytes")]
    TooLarge,
    /// The line has none of the forms that a line can have.
    #[error("line {0}: bad line")]
    BadLine(u64),
    /// The line, the number of bits that it has, and the number of columns.
    #[error("line {0}: found {1} bits, wanted {2}")]
    WrongWidth(u64, u64, u64),
    /// With some line there are more than 4,294,967,295 clocks; so many there are then.
    #[error("{0} clocks")]
    TooManyClocks(u64),
    /// A read failed, and the fault was counted.
    #[error("read fault")]
    ReadFault,
    #[error("out of memory")]
    NoMemory,
}

impl From<AllocError> for StimFault {
    ghost use Rattle.vw_rows.specs.declared.fault.StimFault.TheVariants.{NoMemory};

    ghost from_gives = { λ _ e. e ≡ NoMemory };

    fn from(_: AllocError) -> Self {
        StimFault::NoMemory
    }
}

impl<T: Drop> From<AllocFailed<T>> for StimFault {
    ghost use Rattle.vw_rows.specs.declared.fault.StimFault.TheVariants.{NoMemory};

    ghost from_gives = { λ _ e. e ≡ NoMemory };

    fn from(_: AllocFailed<T>) -> Self {
        StimFault::NoMemory
    }
}

/// The message of a line with a wrong number of bits.
fn of_width(alloc: Global, number: u64, found: u64, wanted: u64) -> Result<Vec<u8>, AllocError>
    ensures { IfOk result (λ line. line.items ≡ fault_text (WrongWidth number found wanted)) }
{
    let line = format!(in alloc;
        "stimulus 3: line {number}: found {found} bits, wanted {wanted}\n"
    )?;
    Ok(line.into_bytes())
}

impl StimFault {
    /// The message line, with the end of the line.
    pub fn text(&self, alloc: Global) -> Result<Vec<u8>, AllocError>
        ensures { IfOk result (λ line. line.items ≡ fault_text self.now) }
    {
        match *self {
            StimFault::TooLarge => b"stimulus 1: text longer than 1073741824 bytes\n".to_vec(alloc),
            StimFault::BadLine(number) => {
                numbered_line(alloc, "stimulus 2: line ", number, ": bad line")
            }
            StimFault::WrongWidth(number, found, wanted) => of_width(alloc, number, found, wanted),
            StimFault::TooManyClocks(count) => numbered_line(
                alloc,
                "stimulus 4: ",
                count,
                " clocks",
            ),
            StimFault::ReadFault => b"read fault: stimulus\n".to_vec(alloc),
            StimFault::NoMemory => b"out of memory\n".to_vec(alloc),
        }
    }
}

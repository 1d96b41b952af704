ghost use Rattle.std.specs.Prelude.{◌≡◌, ◌++◌, ◌∷◌, [], IfOk};
ghost use Rattle.std.specs.Fmt.{decimal};
ghost use Rattle.vw_board.specs.declared.fault.BoardFault.TheVariants.{PinsExceeded};
ghost use Rattle.vw_board.specs.Messages.{fault_text};

use std::alloc::{AllocError, AllocFailed, Global};
use thiserror::Error;
use vw_text::numbered_line;

/// Why a text is no board. Lines are numbered from 1.
#[derive(Clone, Copy, Debug, PartialEq, Eq, Error)]
pub enum BoardFault {
    /// The text has more than 1,048,576 bytes.
    #[error("text longer than 1048576 bytes")]
    TooLarge,
    /// The line doesn't begin with the word that is due, or has too few or too many words.
    #[error("line {0}: bad line")]
    BadLine(u64),
    /// A word of the line is no number, or out of its range.
    #[error("line {0}: bad number")]
    BadNumber(u64),
    /// A link leads from this node to itself.
    #[error("self link {0}")]
    SelfLink(u32),
    /// A second link leads from the first node to the second.
    #[error("duplicate link {0} {1}")]
    DuplicateLink(u32, u32),
    /// The chip, the number of pins that it uses, and the number that it has.
    #[error("chip {0} uses {1} pins of {2}")]
    PinsExceeded(u32, u32, u32),
    /// No walk leads from the first node to the second.
    #[error("no walk from {0} to {1}")]
    Unreachable(u32, u32),
    #[error("out of memory")]
    NoMemory,
}

impl From<AllocError> for BoardFault {
    ghost use Rattle.vw_board.specs.declared.fault.BoardFault.TheVariants.{NoMemory};

    ghost from_gives = { λ _ e. e ≡ NoMemory };

    fn from(_: AllocError) -> Self {
        BoardFault::NoMemory
    }
}

impl<T: Drop> From<AllocFailed<T>> for BoardFault {
    ghost use Rattle.vw_board.specs.declared.fault.BoardFault.TheVariants.{NoMemory};

    ghost from_gives = { λ _ e. e ≡ NoMemory };

    fn from(_: AllocFailed<T>) -> Self {
        BoardFault::NoMemory
    }
}

/// A line with two numbers, the second as its last word, with the end of the line.
fn with_two(
    alloc: Global,
    before: &str,
    first: u32,
    between: &str,
    second: u32,
) -> Result<Vec<u8>, AllocError>
    ensures { IfOk result (λ line. line.items
        ≡ before.now ++ decimal first ++ between.now ++ decimal second ++ 10 ∷ []) }
{
    let line = format!(in alloc; "{before}{first}{between}{second}\n")?;
    Ok(line.into_bytes())
}

/// The message of a chip that uses more pins than it has.
fn of_pins(alloc: Global, chip: u32, used: u32, limit: u32) -> Result<Vec<u8>, AllocError>
    ensures { IfOk result (λ line. line.items ≡ fault_text (PinsExceeded chip used limit)) }
{
    let line = format!(in alloc; "board 6: chip {chip} uses {used} pins of {limit}\n")?;
    Ok(line.into_bytes())
}

impl BoardFault {
    /// The message line, with the end of the line.
    pub fn text(&self, alloc: Global) -> Result<Vec<u8>, AllocError>
        ensures { IfOk result (λ line. line.items ≡ fault_text self.now) }
    {
        match *self {
            BoardFault::TooLarge => b"board 1: text longer than 1048576 bytes\n".to_vec(alloc),
            BoardFault::BadLine(number) => numbered_line(
                alloc,
                "board 2: line ",
                number,
                ": bad line",
            ),
            BoardFault::BadNumber(number) => {
                numbered_line(alloc, "board 3: line ", number, ": bad number")
            }
            BoardFault::SelfLink(a) => numbered_line(
                alloc,
                "board 4: self link ",
                u64::from(a),
                "",
            ),
            BoardFault::DuplicateLink(a, b) => {
                with_two(alloc, "board 5: duplicate link ", a, " ", b)
            }
            BoardFault::PinsExceeded(chip, used, limit) => of_pins(alloc, chip, used, limit),
            BoardFault::Unreachable(a, b) => with_two(
                alloc,
                "board 7: no walk from ",
                a,
                " to ",
                b,
            ),
            BoardFault::NoMemory => b"out of memory\n".to_vec(alloc),
        }
    }
}

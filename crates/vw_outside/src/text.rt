ghost use Rattle.std.specs.Prelude.{◌≡◌, ◌≢◌, ◌≤◌, ◌<◌, ◌^◌, length, IfOk, IsErrOf, Err};
ghost use Rattle.vw_outside.specs.Told.{absent, IsTextOf, OfText};
ghost use Rattle.vw_outside.specs.Reads.{CountsFault};

use crate::name::Name;
use crate::shelf::Shelf;
use std::alloc::{AllocError, Global};

/// Why a text could not be read whole.
#[derive(Clone, Copy, Debug, PartialEq, Eq)]
pub enum TextRefused {
    /// It has more bytes than the limit.
    TooLarge,
    /// A read failed.
    ReadFault,
    NoMemory,
}

impl From<AllocError> for TextRefused {
    ghost use Rattle.vw_outside.specs.declared.text.TextRefused.TheVariants.{NoMemory};

    ghost from_gives = { λ _ e. e ≡ NoMemory };

    fn from(_: AllocError) -> Self {
        TextRefused::NoMemory
    }
}

/// How many bytes one read asks for at the most.
const PIECE: usize = 65_536;

/// Reads the whole text of a name, in pieces of 64 KiB, until its end or until one byte past the limit. It takes
/// memory for the text.
pub fn read_text<S: Shelf>(
    alloc: Global,
    shelf: &mut S,
    name: &Name,
    limit: u64,
) -> Result<Vec<u8>, TextRefused>
    requires { limit < 2 ^ 63 }
    ensures whole { IfOk result (λ text. IsTextOf ((S.seen shelf.old).told name.now) text.items) }
    ensures within { IfOk result (λ text. length text.items ≤ limit) }
    ensures too_large { IsErrOf result TextRefused.TooLarge
        → OfText ((S.seen shelf.old).told name.now) (λ bytes. limit < length bytes) }
    ensures absent { (S.seen shelf.old).told name.now ≡ absent
        → result ≡ Err TextRefused.ReadFault }

    // What the reads leave of the shelf.
    ensures fault { IsErrOf result TextRefused.ReadFault
        → CountsFault name.now (S.seen shelf.old) (S.seen shelf.new) }
    ensures kept { result ≢ Err TextRefused.ReadFault → S.seen shelf.new ≡ S.seen shelf.old }
{
    let mut text = Vec::new(alloc);
    let mut piece = [0u8; PIECE];
    while text.len() as u64 <= limit {
        let room = (limit as usize + 1 - text.len()).min(PIECE);
        let Ok(count) = shelf.read(name, text.len() as u64, &mut piece[..room]) else {
            return Err(TextRefused::ReadFault);
        };
        if count == 0 {
            return Ok(text);
        }
        text.extend_from_slice(&piece[..count])?;
    }
    Err(TextRefused::TooLarge)
}

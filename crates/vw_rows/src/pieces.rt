//! A stimulus text is read in pieces, as far as its limit.
ghost use Rattle.std.specs.Prelude.{◌≡◌, ◌≢◌, ◌≤◌, ◌<◌, ◌+◌, ℕ, List, length, MatchBool, IfOk, IfErr, IsErr, IsErrOf, OnOk, Err};
ghost use Rattle.vw_outside.specs.Told.{absent, held};
ghost use Rattle.vw_outside.specs.Reads.{Fills, CountsFault};
ghost use Rattle.vw_rows.specs.declared.limits.TheConstants.{MOST_STIMULUS_BYTES};

use crate::fault::StimFault;
use crate::limits::MOST_STIMULUS_BYTES;
use vw_outside::{Name, Shelf};

/// How many bytes one read asks for at the most.
pub const PIECE: usize = 32_768;

/// Whether a text has a byte past the limit.
pub fn is_too_large<S: Shelf>(shelf: &mut S, name: &Name) -> Result<bool, StimFault>
    ensures held { (bytes : List ℕ) → (S.seen shelf.old).told name.now ≡ held bytes
        → IfOk result (λ large. MatchBool large (MOST_STIMULUS_BYTES < length bytes) (length bytes ≤ MOST_STIMULUS_BYTES)) }
    ensures absent { (S.seen shelf.old).told name.now ≡ absent → IsErr result }
    ensures fails { IfErr result (λ fault. fault ≡ StimFault.ReadFault) }
    ensures fault { IsErrOf result StimFault.ReadFault
        → CountsFault name.now (S.seen shelf.old) (S.seen shelf.new) }
    ensures kept { OnOk result (S.seen shelf.new ≡ S.seen shelf.old) }
{
    let mut past = [0u8; 1];
    match shelf.read(name, MOST_STIMULUS_BYTES, &mut past) {
        Ok(count) => Ok(count > 0),
        Err(_) => Err(StimFault::ReadFault),
    }
}

/// Reads bytes of a text from a place on, and says how many; none at the limit or at the end.
pub fn read_piece<S: Shelf>(
    shelf: &mut S,
    name: &Name,
    from: u64,
    into: &mut [u8],
) -> Result<usize, StimFault>
    requires { from ≤ MOST_STIMULUS_BYTES }
    ensures held { (bytes : List ℕ) → (S.seen shelf.old).told name.now ≡ held bytes
        → length bytes ≤ MOST_STIMULUS_BYTES → IfOk result (Fills bytes from into.new) }
    ensures absent { (S.seen shelf.old).told name.now ≡ absent → from < MOST_STIMULUS_BYTES → IsErr result }
    ensures within { IfOk result (λ count. count ≤ length into.new) }
    ensures limit { IfOk result (λ count. from + count ≤ MOST_STIMULUS_BYTES) }
    ensures fails { IfErr result (λ fault. fault ≡ StimFault.ReadFault) }
    ensures fault { IsErrOf result StimFault.ReadFault
        → CountsFault name.now (S.seen shelf.old) (S.seen shelf.new) }
    ensures kept { OnOk result (S.seen shelf.new ≡ S.seen shelf.old) }
{
    if from == MOST_STIMULUS_BYTES {
        return Ok(0);
    }
    let room = into.len().min((MOST_STIMULUS_BYTES - from) as usize);
    match shelf.read(name, from, &mut into[..room]) {
        Ok(count) => Ok(count),
        Err(_) => Err(StimFault::ReadFault),
    }
}

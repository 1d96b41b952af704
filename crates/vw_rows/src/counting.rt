//! The rows of a stimulus text are counted, and none is kept.
ghost use Rattle.std.specs.Prelude.{◌≡◌, ◌≢◌, ◌≤◌, ◌<◌, ◌+◌, ◌^◌, ℕ, List, true, length, IfOk, OnOk, IsErrOf, Err};
ghost use Rattle.vw_outside.specs.Told.{absent, held, OfText};
ghost use Rattle.vw_outside.specs.Reads.{CountsFault};
ghost use Rattle.vw_rows.specs.Stimulus.{is_of_text};
ghost use Rattle.vw_rows.specs.Steps.Counting.{CountsLine, CountsPiece, CountsRows};
ghost use Rattle.vw_rows.specs.declared.limits.TheConstants.{MOST_CLOCKS, MOST_STIMULUS_BYTES};

use crate::fault::StimFault;
use crate::pieces::{PIECE, read_piece};
use crate::scan::Scan;
use std::alloc::Global;
use vw_outside::{Name, Shelf};

/// Reads the line at the front of a piece, or so much of it as is there, and says how many bytes.
fn count_line(scan: &mut Scan, piece: &[u8]) -> Result<usize, StimFault>
    requires some { 0 < length piece.now }
    requires few { scan.old.clocks ≤ MOST_CLOCKS }
    requires room { scan.old.number + 1 < 2 ^ 64 }
    ensures counts { CountsLine piece.now scan.old scan.new result }
    ensures progress { IfOk result (λ count. 0 < count) }
    ensures within { IfOk result (λ count. count ≤ length piece.now) }
    ensures few { OnOk result (scan.new.clocks ≤ MOST_CLOCKS) }
    ensures number { OnOk result (scan.new.number ≤ scan.old.number + 1) }
    ensures width { OnOk result (scan.new.width ≡ scan.old.width) }
    ensures reads_nothing { result ≢ Err StimFault.ReadFault }
{
    let (count, ended) = scan.line.take(piece, scan.number)?;
    if !ended {
        return Ok(count);
    }
    scan.end()?;
    scan.begin();
    Ok(count)
}

/// Reads the lines of a piece.
fn count_piece(scan: &mut Scan, piece: &[u8]) -> Result<(), StimFault>
    requires few { scan.old.clocks ≤ MOST_CLOCKS }
    requires room { scan.old.number + length piece.now < 2 ^ 64 }
    ensures counts { CountsPiece piece.now scan.old scan.new result }
    ensures few { OnOk result (scan.new.clocks ≤ MOST_CLOCKS) }
    ensures number { OnOk result (scan.new.number ≤ scan.old.number + length piece.now) }
    ensures width { OnOk result (scan.new.width ≡ scan.old.width) }
    ensures reads_nothing { result ≢ Err StimFault.ReadFault }
{
    let mut rest = piece;
    while !rest.is_empty() {
        let count = count_line(scan, rest)?;
        let (_, after) = rest.split_at(count);
        rest = after;
    }
    Ok(())
}

/// Counts the rows of a text that isn't too large, each of `width` bits.
pub fn count_rows<S: Shelf>(
    alloc: Global,
    shelf: &mut S,
    name: &Name,
    width: u32,
) -> Result<u64, StimFault>
    requires { (bytes : List ℕ) → (S.seen shelf.old).told name.now ≡ held bytes
        → length bytes ≤ MOST_STIMULUS_BYTES }
    ensures rows { is_of_text result ≡ true
        → OfText ((S.seen shelf.old).told name.now) (λ text. CountsRows width text result) }
    ensures few { IfOk result (λ clocks. clocks ≤ MOST_CLOCKS) }
    ensures absent { (S.seen shelf.old).told name.now ≡ absent → result ≡ Err StimFault.ReadFault }
    ensures fault { IsErrOf result StimFault.ReadFault
        → CountsFault name.now (S.seen shelf.old) (S.seen shelf.new) }
    ensures kept { result ≢ Err StimFault.ReadFault → S.seen shelf.new ≡ S.seen shelf.old }
{
    let mut scan = Scan::new(alloc, 0, width, 1, 0);
    let mut piece = [0u8; PIECE];
    let mut at = 0;
    'pieces: loop {
        let count = read_piece(shelf, name, at, &mut piece)?;
        if count == 0 {
            scan.end()?;
            return Ok(scan.clocks);
        }
        count_piece(&mut scan, &piece[..count])?;
        at += count as u64;
    }
}

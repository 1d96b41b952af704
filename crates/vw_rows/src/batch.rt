//! Rows that are gathered into a batch as the text is read again.
ghost use Rattle.std.specs.Prelude.{◌≡◌, ◌≢◌, ◌≤◌, ◌<◌, ◌+◌, ◌^◌, ℕ, List, length, IfOk, OnOk, IsErrOf, Err};
ghost use Rattle.vw_rows.specs.Stimulus.{last_row};
ghost use Rattle.vw_rows.specs.Steps.Batches.{IsPaid, HasFitNumbers, GivesCopies, AddsToBatch, EndsLineOf, TakesLineOf, TakesPieceOf, EndsTextOf, GathersOf};
ghost use Rattle.vw_outside.specs.Told.{held};
ghost use Rattle.vw_outside.specs.Reads.{CountsFault};
ghost use Rattle.vw_rows.specs.declared.limits.TheConstants.{MOST_CLOCKS, MOST_STIMULUS_BYTES};

use crate::fault::StimFault;
use crate::pieces::{PIECE, read_piece};
use crate::scan::{Adds, Scan};
use std::alloc::{AllocError, Global};
use vw_net::{Bits, Rows};
use vw_outside::{Name, Shelf};

/// The rows of a batch so far, and where the text is.
#[derive(Drop)]
pub struct Batch {
    /// The line that is being read.
    pub scan: Scan,
    /// The place of that line.
    pub at: u64,
    /// The place up to which it was read.
    pub read: u64,
    pub rows: Rows,
    /// How many rows there are to be.
    pub wanted: usize,
    /// How many copies of the row before that line are still to be given.
    pub owed: u64,
}

/// A copy of these bits.
fn copy_of(alloc: Global, bits: &[bool]) -> Result<Vec<bool>, AllocError>
    ensures { IfOk result (λ row. row.items ≡ bits.now) }
{
    Ok(bits.to_vec(alloc)?)
}

/// A copy of the last of some rows, or else of one before them.
pub fn copy_of_last(alloc: Global, before: &Bits, rows: &Rows) -> Result<Vec<bool>, AllocError>
    ensures { IfOk result (λ row. row.items ≡ last_row before.now rows.now) }
{
    match rows.len() {
        0 => copy_of(alloc, before.as_slice()),
        count => copy_of(alloc, rows.row(count - 1)),
    }
}

impl Batch {
    /// Gives copies that are owed, until there are as many rows as are wanted.
    pub fn give_copies(&mut self, alloc: Global, before: &Bits) -> Result<(), AllocError>
        requires { length self.old.rows ≤ self.old.wanted }
        ensures { OnOk result (GivesCopies before.now self.old self.new) }
    {
        if self.owed == 0 {
            return Ok(());
        }
        let row = copy_of_last(alloc, before, &self.rows)?;
        while self.owed > 0 && self.rows.len() < self.wanted {
            self.rows.push(&row)?;
            self.owed -= 1;
        }
        Ok(())
    }

    /// Adds what a line adds.
    fn add(&mut self, alloc: Global, before: &Bits, adds: Adds) -> Result<(), AllocError>
        requires paid { self.old.owed ≡ 0 }
        requires room { length self.old.rows < self.old.wanted }
        ensures { OnOk result (AddsToBatch before.now adds self.old self.new) }
    {
        match adds {
            Adds::Nothing => Ok(()),
            Adds::Row => self.rows.push(&self.scan.line.bits),
            Adds::Copies(times) => {
                self.owed = times;
                self.give_copies(alloc, before)
            }
        }
    }

    /// Adds what the line adds, now that it has ended, and begins the next.
    pub fn end_line(&mut self, alloc: Global, before: &Bits) -> Result<(), StimFault>
        requires few { self.old.scan.clocks ≤ MOST_CLOCKS }
        requires number { self.old.scan.number + 1 < 2 ^ 64 }
        requires paid { self.old.owed ≡ 0 }
        requires room { length self.old.rows < self.old.wanted }
        ensures ends { EndsLineOf before.now self.old self.new result }
        ensures reads_nothing { result ≢ Err StimFault.ReadFault }
    {
        let adds = self.scan.end()?;
        self.add(alloc, before, adds)?;
        self.scan.begin();
        self.at = self.read;
        Ok(())
    }

    /// Reads the line at the front of a piece, or so much of it as is there, and says how many bytes.
    fn take_line(&mut self, alloc: Global, before: &Bits, piece: &[u8]) -> Result<usize, StimFault>
        requires some { 0 < length piece.now }
        requires fit { HasFitNumbers self.old }
        requires room { length self.old.rows < self.old.wanted }
        requires limit { self.old.read + length piece.now ≤ MOST_STIMULUS_BYTES }
        ensures takes { TakesLineOf before.now piece.now self.old self.new result }
        ensures fit { OnOk result (HasFitNumbers self.new) }
        ensures progress { IfOk result (λ count. 0 < count) }
        ensures within { IfOk result (λ count. count ≤ length piece.now) }
        ensures read { IfOk result (λ count. self.new.read ≡ self.old.read + count) }
        ensures wanted { OnOk result (self.new.wanted ≡ self.old.wanted) }
        ensures reads_nothing { result ≢ Err StimFault.ReadFault }
    {
        let (count, ended) = self.scan.line.take(piece, self.scan.number)?;
        self.read += count as u64;
        if !ended {
            return Ok(count);
        }
        self.end_line(alloc, before)?;
        Ok(count)
    }

    /// Reads the lines at the front of a piece, until there are as many rows as are wanted.
    pub fn take(&mut self, alloc: Global, before: &Bits, piece: &[u8]) -> Result<(), StimFault>
        requires fit { HasFitNumbers self.old }
        requires limit { self.old.read + length piece.now ≤ MOST_STIMULUS_BYTES }
        ensures takes { TakesPieceOf before.now piece.now self.old self.new result }
        ensures fit { OnOk result (HasFitNumbers self.new) }
        ensures wanted { OnOk result (self.new.wanted ≡ self.old.wanted) }
        ensures reads_nothing { result ≢ Err StimFault.ReadFault }
    {
        let mut rest = piece;
        while !rest.is_empty() && self.rows.len() < self.wanted {
            let count = self.take_line(alloc, before, rest)?;
            let (_, after) = rest.split_at(count);
            rest = after;
        }
        Ok(())
    }

    /// Adds what the last line of the text adds, which nothing ends. There is one, and no row is missing behind it.
    fn finish(&mut self, alloc: Global, before: &Bits) -> Result<(), StimFault>
        requires fit { HasFitNumbers self.old }
        requires room { length self.old.rows < self.old.wanted }
        ensures ends { EndsTextOf before.now self.old self.new result }
        ensures fit { OnOk result (HasFitNumbers self.new) }
        ensures full { OnOk result (length self.new.rows ≡ self.old.wanted) }
        ensures wanted { OnOk result (self.new.wanted ≡ self.old.wanted) }
        ensures reads_nothing { result ≢ Err StimFault.ReadFault }
    {
        if self.at == self.read {
            return Err(StimFault::BadLine(self.scan.number));
        }
        self.end_line(alloc, before)?;
        if self.rows.len() < self.wanted {
            return Err(StimFault::BadLine(self.scan.number));
        }
        Ok(())
    }

    /// How many bytes the next read asks for: about as many as the rows take that are still wanted, and at least twice
    /// as many as the one before.
    fn room(&self, before: usize) -> usize
        ensures some { 0 < result }
        ensures few { result ≤ 32768 }
    {
        let missing = self.wanted.saturating_sub(self.rows.len());
        let line = (self.scan.width as usize).saturating_add(1);
        missing
            .saturating_mul(line)
            .max(before.saturating_mul(2))
            .clamp(2, PIECE)
    }

    /// Reads on until there are as many rows as are wanted.
    pub fn gather<S: Shelf>(
        &mut self,
        alloc: Global,
        shelf: &mut S,
        name: &Name,
        before: &Bits,
    ) -> Result<(), StimFault>
        requires fit { HasFitNumbers self.old }
        requires short { (bytes : List ℕ) → (S.seen shelf.old).told name.now ≡ held bytes
            → length bytes ≤ MOST_STIMULUS_BYTES }
        ensures gathers { GathersOf ((S.seen shelf.old).told name.now) before.now self.old self.new result }
        ensures fit { OnOk result (HasFitNumbers self.new) }
        ensures full { OnOk result (length self.new.rows ≡ self.old.wanted) }
        ensures fault { IsErrOf result StimFault.ReadFault
            → CountsFault name.now (S.seen shelf.old) (S.seen shelf.new) }
        ensures kept { result ≢ Err StimFault.ReadFault → S.seen shelf.new ≡ S.seen shelf.old }
    {
        let mut piece = [0u8; PIECE];
        let mut asked = 0;
        while self.rows.len() < self.wanted {
            asked = self.room(asked);
            let count = read_piece(shelf, name, self.read, &mut piece[..asked])?;
            if count == 0 {
                return self.finish(alloc, before);
            }
            self.take(alloc, before, &piece[..count])?;
        }
        Ok(())
    }
}

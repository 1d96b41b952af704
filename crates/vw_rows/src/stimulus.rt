//! A stimulus that is read once to check it, and once more in batches of rows.
ghost use Rattle.std.specs.Prelude.{◌≡◌, ◌≤◌, ◌+◌, length};
ghost use Rattle.vw_rows.specs.declared.limits.TheConstants.{MOST_CLOCKS, MOST_STIMULUS_BYTES};

use crate::batch::{Batch, copy_of_last};
use crate::counting::count_rows;
use crate::fault::StimFault;
use crate::pieces::is_too_large;
use crate::scan::Scan;
use std::alloc::Global;
use vw_net::{Bits, Rows};
use vw_outside::{Name, Shelf};

/// A stimulus that was checked, and how far it was given. `check` makes it. The text itself isn't kept.
pub struct Stimulus {
    /// The name of the text.
    pub name: Name,
    /// How many columns there are, and so how many bits each row has.
    pub width: u32,
    /// How many rows the text has.
    pub clocks: u64,
    /// How many of them were given.
    pub done: u64,
    /// The place, counted from 0, of the line that is read next.
    pub at: u64,
    /// The number of that line, from 1.
    pub line: u64,
    /// The row before that line.
    pub before: Bits,
    /// How many copies of that row are given before that line is read.
    pub owed: u64,
    ghost some_left: { done ≤ clocks },
    ghost few: { clocks ≤ MOST_CLOCKS },
    ghost wide: { length before ≡ width },
    ghost inside: { at ≤ MOST_STIMULUS_BYTES },
    ghost numbered: { line ≤ at + 1 },
    ghost few_owed: { done + owed ≤ MOST_CLOCKS },
}

impl Drop for Stimulus {
    fn drop(self) {
        let Stimulus {
            name: _,
            width: _,
            clocks: _,
            done: _,
            at: _,
            line: _,
            before: _,
            owed: _,
        } = self;
    }
}

impl Stimulus {
    ghost use Rattle.std.specs.Prelude.{◌≢◌, ◌-◌, ℕ, Bool, List, true, false, min, take, drop, IfOk, IfErr, OnErr, IsErrOf, Ok, Err};
    ghost use Rattle.std.specs.List.{All};
    ghost use Rattle.vw_outside.specs.Told.{absent, held, OfText};
    ghost use Rattle.vw_outside.specs.Reads.{CountsFault};
    ghost use Rattle.vw_rows.specs.Stimulus.{stimulus_rows, is_of_text, is_text_fault};
    ghost use Rattle.vw_rows.specs.Standing.{Checks, IsAtStart, StandsIn, GaveMore, HasNoNext};
    ghost use Rattle.vw_rows.specs.Steps.NextRows.{GathersNext};

    /// How many rows the text has.
    pub fn clocks(&self) -> u64
        ensures { result ≡ self.now.clocks }
    {
        self.clocks
    }

    /// How many rows were given.
    pub fn done(&self) -> u64
        ensures { result ≡ self.now.done }
    {
        self.done
    }

    /// Reads the text of a name once, in pieces, and checks that it has rows of `width` bits.
    ///
    /// A line is a word of `0` and `1`, with one character for each bit; or `-`, a row without bits; or `hold N`, which
    /// gives the row before it so many times, or a row of zeros where there is none before it. A `#` begins a comment,
    /// and a line without words says nothing. Of several lines at fault the first counts; that there is a byte past the
    /// limit is read for before all lines.
    ///
    /// It takes memory for the name and for one row, and keeps neither the text nor its rows.
    pub fn check<S: Shelf>(
        alloc: Global,
        shelf: &mut S,
        name: &Name,
        width: u32,
    ) -> Result<Stimulus, StimFault>
        // The stimulus stands in the text, and a fault that lies in the text is the text's.
        ensures checks { is_of_text result ≡ true
            → OfText ((S.seen shelf.old).told name.now) (λ text. Checks width text result) }
        ensures starts { IfOk result (IsAtStart name.now width) }
        ensures absent { (S.seen shelf.old).told name.now ≡ absent → result ≡ Err StimFault.ReadFault }

        // What the reads leave of the shelf.
        ensures fault { IsErrOf result StimFault.ReadFault
            → CountsFault name.now (S.seen shelf.old) (S.seen shelf.new) }
        ensures kept { result ≢ Err StimFault.ReadFault → S.seen shelf.new ≡ S.seen shelf.old }
    {
        if is_too_large(shelf, name)? {
            return Err(StimFault::TooLarge);
        }
        let clocks = count_rows(alloc, shelf, name, width)?;
        let zeros = vec![in alloc; false; width as usize]?;
        Ok(Stimulus {
            name: name.copy(alloc)?,
            width,
            clocks,
            done: 0,
            at: 0,
            line: 1,
            before: Bits::of(zeros),
            owed: 0,
        })
    }

    /// The next rows, so many of them.
    fn gather<S: Shelf>(
        &self,
        alloc: Global,
        shelf: &mut S,
        wanted: usize,
    ) -> Result<Batch, StimFault>
        requires few { self.now.done + wanted ≤ self.now.clocks }
        requires stands { (text : List ℕ) → (S.seen shelf.old).told self.now.name ≡ held text
            → StandsIn self.now text }
        ensures gathers { GathersNext ((S.seen shelf.old).told self.now.name) wanted self.now result }
        ensures fault { IsErrOf result StimFault.ReadFault
            → CountsFault self.now.name (S.seen shelf.old) (S.seen shelf.new) }
        ensures kept { result ≢ Err StimFault.ReadFault → S.seen shelf.new ≡ S.seen shelf.old }
    {
        let clocks = self.done + self.owed;
        let mut batch = Batch {
            scan: Scan::new(alloc, self.width, self.width, self.line, clocks),
            at: self.at,
            read: self.at,
            rows: Rows::new(alloc),
            wanted,
            owed: self.owed,
        };
        batch.give_copies(alloc, &self.before)?;
        batch.gather(alloc, shelf, &self.name, &self.before)?;
        Ok(batch)
    }

    /// The next rows, `most` of them, or all that are left where these are fewer; each has as many bits as there are
    /// columns. It reads the text on from where it stands, for about as many bytes as these rows take.
    ///
    /// It takes memory for these rows and for one more. After a fault nothing was given. Where the text isn't the one
    /// that was checked, it may be found at fault. A last line that nothing ends counts as a line; where rows are missing
    /// at the end of the text, the line behind the last one is bad. Each read asks for at least twice as many bytes as the
    /// one before, and for 32 KiB at the most.
    pub fn next_batch<S: Shelf>(
        &mut self,
        alloc: Global,
        shelf: &mut S,
        most: u32,
    ) -> Result<Rows, StimFault>
        requires some { 1 ≤ most }
        requires stands { (text : List ℕ) → (S.seen shelf.old).told self.old.name ≡ held text
            → StandsIn self.old text }

        // The rows are the next ones of the text, and the stimulus stands behind them. A text that is told isn't at fault.
        ensures rows { (text : List ℕ) (all : List (List Bool))
            → (S.seen shelf.old).told self.old.name ≡ held text
            → stimulus_rows self.old.width text ≡ Ok all
            → IfOk result (λ rows. rows ≡ take most (drop self.old.done all)) }
        ensures stands { (text : List ℕ) → (S.seen shelf.old).told self.old.name ≡ held text
            → StandsIn self.new text }
        ensures sure { (text : List ℕ) → (S.seen shelf.old).told self.old.name ≡ held text
            → IfErr result (λ fault. is_text_fault fault ≡ false) }

        // Over every shelf.
        ensures gave { IfOk result (λ rows. GaveMore (length rows) self.old self.new) }
        ensures count { IfOk result (λ rows. length rows
            ≡ min most (self.old.clocks - self.old.done)) }
        ensures width { IfOk result (All (λ row. length row ≡ self.old.width)) }
        ensures unmoved { OnErr result (self.new ≡ self.old) }

        // A fault that lies in the text is that of some bytes, taken for the text from where the stimulus stood.
        ensures refused { IfErr result (λ fault. is_text_fault fault ≡ true
            → HasNoNext (min most (self.old.clocks - self.old.done)) self.old fault) }

        // What the reads leave of the shelf.
        ensures fault { IsErrOf result StimFault.ReadFault
            → CountsFault self.old.name (S.seen shelf.old) (S.seen shelf.new) }
        ensures kept { result ≢ Err StimFault.ReadFault → S.seen shelf.new ≡ S.seen shelf.old }
    {
        let wanted = u64::from(most).min(self.clocks - self.done) as usize;
        let batch = self.gather(alloc, shelf, wanted)?;
        let before = Bits::of(copy_of_last(alloc, &self.before, &batch.rows)?);
        self.done += wanted as u64;
        self.at = batch.at;
        self.line = batch.scan.number;
        self.before = before;
        self.owed = batch.owed;
        Ok(batch.rows)
    }
}

//! The lines of a stimulus text, as it is read piece by piece.
ghost use Rattle.std.specs.Prelude.{◌≡◌, ◌≢◌, ◌≤◌, ◌<◌, ◌+◌, ◌^◌, [], OnOk, Err};
ghost use Rattle.vw_rows.specs.Steps.Lines.{IsLine};
ghost use Rattle.vw_rows.specs.Steps.Scans.{rows_from_line, AddsLine, EndsLine};
ghost use Rattle.vw_rows.specs.declared.limits.TheConstants.{MOST_CLOCKS};

use crate::fault::StimFault;
use crate::limits::MOST_CLOCKS;
use crate::line_so_far::LineSoFar;
use crate::said::{Said, ends_word};
use std::alloc::Global;

/// What a line adds.
#[derive(Clone, Copy)]
pub enum Adds {
    Nothing,
    /// The row that it spells.
    Row,
    /// So many copies of the row before it.
    Copies(u64),
}

/// The line that is being read, how many bits a row has, the number of the line, and how many rows there are before it.
pub struct Scan {
    pub line: LineSoFar,
    pub width: u32,
    pub number: u64,
    pub clocks: u64,
}

impl Drop for Scan {
    fn drop(self) {
        let Scan {
            line: _,
            width: _,
            number: _,
            clocks: _,
        } = self;
    }
}

/// How many rows a line adds.
fn count_of(adds: Adds) -> u64
    ensures { result ≡ rows_from_line adds }
{
    match adds {
        Adds::Nothing => 0,
        Adds::Row => 1,
        Adds::Copies(times) => times,
    }
}

impl Scan {
    /// The line with this number, of which nothing was read, behind so many rows; so many bits of its row are kept. It
    /// takes no memory.
    pub fn new(alloc: Global, kept: u32, width: u32, number: u64, clocks: u64) -> Self
        ensures line { IsLine [] result.line }
        ensures kept { result.line.kept ≡ kept }
        ensures width { result.width ≡ width }
        ensures number { result.number ≡ number }
        ensures clocks { result.clocks ≡ clocks }
    {
        Scan {
            line: LineSoFar::new(alloc, kept),
            width,
            number,
            clocks,
        }
    }

    /// What the line adds, if nothing follows.
    fn adds(&self) -> Result<Adds, StimFault>
        ensures adds { AddsLine self.now result }
        ensures reads_nothing { result ≢ Err StimFault.ReadFault }
    {
        let width = u64::from(self.width);
        let Some(said) = ends_word(self.line.said) else {
            return Err(StimFault::BadLine(self.number));
        };
        match said {
            Said::Nothing => Ok(Adds::Nothing),
            Said::Row(bits) => {
                if bits != width {
                    return Err(StimFault::WrongWidth(self.number, bits, width));
                }
                Ok(Adds::Row)
            }
            Said::Times(times) => Ok(Adds::Copies(times)),
            Said::Hold => Err(StimFault::BadLine(self.number)),
            Said::Bits(_) => Err(StimFault::BadLine(self.number)),
            Said::Dash => Err(StimFault::BadLine(self.number)),
            Said::Letters(_) => Err(StimFault::BadLine(self.number)),
            Said::Number(_) => Err(StimFault::BadLine(self.number)),
        }
    }

    /// What the line adds, now that it has ended, and counts it.
    pub fn end(&mut self) -> Result<Adds, StimFault>
        requires few { self.old.clocks ≤ MOST_CLOCKS }
        ensures ends { EndsLine self.old self.new result }
        ensures few { OnOk result (self.new.clocks ≤ MOST_CLOCKS) }
        ensures reads_nothing { result ≢ Err StimFault.ReadFault }
    {
        let adds = self.adds()?;
        let clocks = self.clocks.saturating_add(count_of(adds));
        if clocks > MOST_CLOCKS {
            return Err(StimFault::TooManyClocks(clocks));
        }
        self.clocks = clocks;
        Ok(adds)
    }

    /// Begins the next line.
    pub fn begin(&mut self)
        requires { self.old.number + 1 < 2 ^ 64 }
        ensures line { IsLine [] self.new.line }
        ensures kept { self.new.line.kept ≡ self.old.line.kept }
        ensures width { self.new.width ≡ self.old.width }
        ensures number { self.new.number ≡ self.old.number + 1 }
        ensures clocks { self.new.clocks ≡ self.old.clocks }
    {
        self.line.begin();
        self.number += 1;
    }
}

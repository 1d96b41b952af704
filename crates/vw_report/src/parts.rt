//! The lines of a plan as a whole, of its nodes and of its links.
ghost use Rattle.std.specs.Prelude.{◌≡◌, ◌<◌, ◌++◌, ◌∷◌, [], length, slice_get, slice_index, Some, OnOk};
ghost use Rattle.vw_text.specs.Physical.{lines_text};
ghost use Rattle.vw_chain.specs.Timing.{planned_of};
ghost use Rattle.vw_report.specs.Report.{chip_line, chip_lines, head_line, host_line, link_lines, link_words, short_word};
ghost use Rattle.vw_report.specs.Steps.Tallies.{AreHopCounts};

use crate::findings::Findings;
use crate::reported::Reported;
use crate::words::{push_line, push_numbers};
use std::alloc::AllocError;
use vw_plan::Link;

/// Appends the bound for plans with shortest wires, or a line where the plan isn't one.
fn push_short(text: &mut Vec<u8>, short: Option<u64>) -> Result<(), AllocError>
    ensures { OnOk result (text.new.items ≡ text.old.items ++ short_word short) }
{
    match short {
        Some(bound) => push_numbers(text, &[bound]),
        None => Ok(text.extend_from_slice(b" -")?),
    }
}

impl<'a> Reported<'a> {
    /// Appends the line of the plan as a whole.
    pub fn push_head(&self, found: &Findings, text: &mut Vec<u8>) -> Result<(), AllocError>
        ensures { OnOk result (text.new.items
            ≡ text.old.items ++ (head_line (planned_of self.now.timed.now) found.now ++ 10 ∷ [])) }
    {
        let plan = self.timed.wired.plan;
        let cells = self.timed.wired.ordered.flat().cells().len() as u64;
        let wires = plan.wires().len() as u64;
        text.extend_from_slice(b"report 1")?;
        push_numbers(
            text,
            &[cells, wires, plan.hops(), plan.period(), found.bound],
        )?;
        push_short(text, found.short)?;
        text.push(b'\n')?;
        Ok(())
    }

    /// Appends the line of the host.
    pub fn push_host(&self, text: &mut Vec<u8>) -> Result<(), AllocError>
        ensures { OnOk result (text.new.items
            ≡ text.old.items ++ (host_line (planned_of self.now.timed.now) ++ 10 ∷ [])) }
    {
        let flat = self.timed.wired.ordered.flat();
        let inputs = u64::from(flat.inputs());
        let outputs = flat.outputs().len() as u64;
        let numbers = [inputs, outputs, self.wires_to(0), self.wires_from(0)];
        push_line(text, b"host", &numbers)
    }

    /// Appends the line of a chip.
    fn push_chip(&self, chip: u32, text: &mut Vec<u8>) -> Result<(), AllocError>
        ensures { OnOk result (text.new.items
            ≡ text.old.items ++ (chip_line (planned_of self.now.timed.now) chip ++ 10 ∷ [])) }
    {
        let numbers = [
            u64::from(chip),
            self.gates_on(chip),
            self.latches_on(chip),
            u64::from(self.timed.wired.board.cells()),
            self.wires_to(chip),
            self.wires_from(chip),
        ];
        push_line(text, b"chip", &numbers)
    }

    /// Appends the lines of the chips.
    pub fn push_chips(&self, text: &mut Vec<u8>) -> Result<(), AllocError>
        ensures { OnOk result (text.new.items
            ≡ text.old.items ++ lines_text (chip_lines (planned_of self.now.timed.now))) }
    {
        for chip in 1..self.timed.wired.board.chips() + 1 {
            self.push_chip(chip, text)?;
        }
        Ok(())
    }

    /// Appends the lines of the links, over which there are so many hops.
    pub fn push_links(&self, hops: &[u64], text: &mut Vec<u8>) -> Result<(), AllocError>
        requires { AreHopCounts (planned_of self.now.timed.now) hops.now }
        ensures { OnOk result (text.new.items
            ≡ text.old.items ++ lines_text (link_lines (planned_of self.now.timed.now))) }
    {
        for (number, link) in self.timed.wired.board.links().iter().enumerate() {
            push_link(number, link, hops[number], text)?;
        }
        Ok(())
    }
}

/// Appends the line of a link, over which there are so many hops.
fn push_link(number: usize, link: &Link, hops: u64, text: &mut Vec<u8>) -> Result<(), AllocError>
    ensures { OnOk result (text.new.items ≡ text.old.items ++ (link_words number link.now hops ++ 10 ∷ [])) }
{
    let numbers = [
        number as u64,
        u64::from(link.from()),
        u64::from(link.to()),
        u64::from(link.width()),
        u64::from(link.delay()),
        hops,
    ];
    push_line(text, b"link", &numbers)
}

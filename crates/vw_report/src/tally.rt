//! How often each number stands in a list.
ghost use Rattle.std.specs.Prelude.{◌≡◌, ◌++◌, map, IfOk, OnOk};
ghost use Rattle.vw_plan.specs.Sound.{hops_of};
ghost use Rattle.vw_chain.specs.Timing.{planned_of};
ghost use Rattle.vw_report.specs.Counts.{link_of};
ghost use Rattle.vw_report.specs.Steps.Tallies.{AreHopCounts, AreTallies};

use crate::counts::link_of;
use crate::reported::Reported;
use std::alloc::{AllocError, Global};
use vw_plan::Hop;
use vw_ready::LinkTable;

/// How often each number below a limit stands in a list.
fn tallies(alloc: Global, numbers: Vec<u32>, limit: usize) -> Result<Vec<u64>, AllocError>
    ensures { IfOk result (λ counts. AreTallies numbers.items limit counts.items) }
{
    let mut counts = vec![in alloc; 0; limit]?;
    for number in &numbers {
        let place = *number as usize;
        if place < counts.len() {
            counts[place] += 1;
        }
    }
    Ok(counts)
}

/// Appends the number of the link of each hop.
fn push_links(links: &LinkTable, hops: &[Hop], numbers: &mut Vec<u32>) -> Result<(), AllocError>
    ensures { OnOk result (numbers.new.items
        ≡ numbers.old.items ++ map (link_of links.now) hops.now) }
{
    for hop in hops {
        numbers.push(link_of(links, hop))?;
    }
    Ok(())
}

impl<'a> Reported<'a> {
    /// The number of the link of each hop, wire after wire.
    fn hop_links(&self, alloc: Global) -> Result<Vec<u32>, AllocError>
        ensures { IfOk result (λ numbers. numbers.items
            ≡ map (link_of (planned_of self.now.timed.now).board.links) (hops_of (planned_of self.now.timed.now).plan)) }
    {
        let mut numbers = Vec::new(alloc);
        for wire in self.timed.wired.plan.wires() {
            push_links(self.timed.wired.links, wire.hops(), &mut numbers)?;
        }
        Ok(numbers)
    }

    /// The hops over each link.
    pub fn hop_counts(&self, alloc: Global) -> Result<Vec<u64>, AllocError>
        ensures { IfOk result (λ counts. AreHopCounts (planned_of self.now.timed.now) counts.items) }
    {
        let numbers = self.hop_links(alloc)?;
        tallies(alloc, numbers, self.timed.wired.board.links().len())
    }
}

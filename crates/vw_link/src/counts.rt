//! How many words a job sends over a link.
ghost use Rattle.std.specs.Prelude.{◌≡◌, ◌<◌, ◌^◌, length};
ghost use Rattle.std.specs.List.{filter};
ghost use Rattle.vw_plan.specs.HopCounts.{hop_count};
ghost use Rattle.vw_prog.specs.Scripts.{script};
ghost use Rattle.vw_link.specs.Counts.{hops_over, over};

use vw_plan::{Hop, Link, Wire};
use vw_prog::Job;

/// Whether a hop goes over a link.
fn is_over(hop: &Hop, link: &Link) -> bool
    ensures { result ≡ over link.now hop.now }
{
    link.from() == hop.from() && link.to() == hop.to()
}

/// How many of some hops go over a link.
fn hops_on(hops: &[Hop], link: &Link) -> u64
    ensures { result ≡ length (filter (over link.now) hops.now) }
{
    let mut count = 0;
    for hop in hops {
        if is_over(hop, link) {
            count += 1;
        }
    }
    count
}

/// How many of the hops of some wires go over a link.
fn hops_over(wires: &[Wire], link: &Link) -> u64
    requires { hop_count wires.now < 2 ^ 30 }
    ensures count { result ≡ hops_over link.now wires.now }
    ensures few { result < 2 ^ 30 }
{
    let mut count = 0;
    for wire in wires {
        count += hops_on(wire.hops(), link);
    }
    count
}

/// How many words a job's script for a link has. It takes no memory.
pub fn script_length(job: &Job, link: u32) -> u64
    requires { link < length job.now.checked.board.links }
    ensures { result ≡ length (script job.now link) }
{
    let there = &job.checked().board().links()[link as usize];
    let clocks = job.share(0).clocks;
    hops_over(job.checked().plan().wires(), there) * clocks
}

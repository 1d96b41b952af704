//! A netlist with fewer tables in the place of one that is to be run.
ghost use Rattle.std.specs.Prelude.{IfSome};
ghost use Rattle.vw_merge.specs.Same.{DoesTheSame};

use std::alloc::Global;
use vw_merge::merged_for;
use vw_net::Ordered;
use vw_outside::Shelf;
use vw_rows::Rereading;

/// A netlist that does the same with fewer tables, where a stimulus has so many clocks that it pays to make it, and there is
/// memory for it.
pub fn merged_before<S: Shelf>(
    alloc: Global,
    ordered: &Ordered,
    rows: &Rereading<'_, '_, S>,
) -> Option<Ordered>
    ensures { IfSome result (λ merged. DoesTheSame ordered.now.flat merged.flat) }
{
    merged_for(alloc, ordered, rows.stimulus.clocks())
}

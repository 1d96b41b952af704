//! Laws of designs that run, and of loops, as contracts of functions that do nothing.
ghost use Rattle.std.specs.Prelude.{◌≤◌, ℕ, List, length};
ghost use Rattle.vw_net.specs.declared.ordered.Ordered.{Ordered};
ghost use Rattle.vw_design.specs.declared.design.Design.{Design};
ghost use Rattle.vw_design.specs.Paths.{Word};
ghost use Rattle.vw_design.specs.Accepted.{IsAccepted};
ghost use Rattle.vw_design.specs.Loops.{Gate, IsLoop};
ghost use Rattle.vw_front.specs.declared.named.NamedNetlist.{NamedNetlist};
ghost use Rattle.vw_front.specs.Designs.{Runs, IsNetlistOf, IsLoopOf};
ghost use Rattle.vw_front.specs.NamedNetlists.{IsNamedNetlistOf};

/// A text with a design that runs, in which each of 65 probes at most finds a net, has a netlist of that design with these
/// nets, with an order of its gates.
pub fn running_designs_have_netlists()
    ensures { (probes : List Word) (text : List ℕ) → Runs probes text → length probes ≤ 65
        → (ordered : Ordered) × IsNetlistOf probes text ordered }
{}

/// Such a text has such a netlist with the names of its nets, too.
pub fn running_designs_have_named_netlists()
    ensures { (probes : List Word) (text : List ℕ) → Runs probes text → length probes ≤ 65
        → (named : NamedNetlist) × IsNamedNetlistOf probes text named }
{}

/// Where any gates of an accepted design read each other in a circle, the design has a loop as it is listed: none of its
/// gates stands twice, and the one with the least number stands first.
pub fn circles_have_listed_loops()
    ensures { (design : Design) → IsAccepted design → (gates : List Gate) → IsLoop design gates
        → (names : List Word) × IsLoopOf design names }
{}

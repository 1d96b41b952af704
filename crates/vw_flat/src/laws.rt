//! Laws of flat netlists and of probes, as contracts of functions that do nothing.
ghost use Rattle.std.specs.Prelude.{◌≡◌, ◌≤◌, List, length};
ghost use Rattle.vw_net.specs.declared.flat.Flat.{Flat};
ghost use Rattle.vw_design.specs.declared.design.Design.{Design};
ghost use Rattle.vw_design.specs.Accepted.{IsAccepted};
ghost use Rattle.vw_design.specs.Flattened.{IsFlatOf};
ghost use Rattle.vw_design.specs.Paths.{Net, Word};
ghost use Rattle.vw_design.specs.Probes.{Finds, FindAll, IsFirstWithoutNet};

/// An accepted design has a flat netlist with the nets that 65 probes find at most, whether its gates have loops or not.
pub fn accepted_designs_have_netlists()
    ensures { (design : Design) → IsAccepted design → (probes : List Word) (nets : List Net)
        → FindAll design probes nets → length probes ≤ 65 → (flat : Flat) × IsFlatOf design nets flat }
{}

/// In an accepted design a probe finds one net at most, and probes find one list of nets.
pub fn probes_find_one_net()
    ensures one { (design : Design) → IsAccepted design → (probe : Word) (net other : Net)
        → Finds design probe net → Finds design probe other → net ≡ other }
    ensures all { (design : Design) → IsAccepted design → (probes : List Word) (nets others : List Net)
        → FindAll design probes nets → FindAll design probes others → nets ≡ others }
{}

/// Probes don't all find a net where one of them is the first that finds none, and there is one first at most.
pub fn one_probe_is_first_without_net()
    ensures apart { (design : Design) (probes : List Word) (nets : List Net) (probe : Word)
        → FindAll design probes nets → IsFirstWithoutNet design probes probe → ⊥ }
    ensures one { (design : Design) (probes : List Word) (probe other : Word)
        → IsFirstWithoutNet design probes probe → IsFirstWithoutNet design probes other
        → probe ≡ other }
{}

//! Laws of the definitions, as contracts of functions that do nothing.
ghost use Rattle.std.specs.Prelude.{ℕ, List};
ghost use Rattle.vw_prog.specs.declared.job.Job.{Job};
ghost use Rattle.vw_world.specs.Able.{IsAble, IsUnfinished};
ghost use Rattle.vw_world.specs.Kept.{IsKept};
ghost use Rattle.vw_world.specs.Worlds.{WorldState, happens, played, start_world};

/// Whatever the order of events, each link has the words of its script from those taken to those sent, slots that are due have
/// the values of the netlist, and what nodes have recorded is what the netlist has. It is so at the start, and each event keeps
/// it.
pub fn events_keep_worlds()
    ensures start { (job : Job) → IsKept job (start_world job) }
    ensures event { (job : Job) (world : WorldState) (node : ℕ) → IsKept job world
        → IsKept job (happens job world node) }
    ensures events { (job : Job) (events : List ℕ)
        → IsKept job (played job (start_world job) events) }
{}

/// A world is never stuck: as long as a node has clocks to come, some node can act. So links need to hold no more words than
/// their width times their delay.
pub fn worlds_are_never_stuck()
    ensures { (job : Job) (world : WorldState) (node : ℕ) → IsKept job world
        → IsUnfinished job world node → (able : ℕ) × IsAble job world able }
{}

//! Laws of the definitions, as contracts of functions that do nothing.
ghost use Rattle.std.specs.Prelude.{ℕ};
ghost use Rattle.vw_prog.specs.declared.job.Job.{Job};
ghost use Rattle.vw_node.specs.Holding.{HoldsValues};
ghost use Rattle.vw_node.specs.States.{start_state};

/// A node holds the values of the netlist at the start.
pub fn values_are_held()
    ensures start { (job : Job) (node : ℕ) → HoldsValues job node (start_state job node) }
{}

//! The command `sim`.
ghost use Rattle.std.specs.Prelude.{◌≤◌, length};
ghost use Rattle.vw_course.specs.Goes.{Goes};
ghost use Rattle.vw_trace.specs.Triggers.{shown_count};
ghost use Rattle.vw_courses.specs.Commands.{netlist_course, netlist_trace_until, no_links, over_design_course, trace_of_until};
ghost use Rattle.vw_courses.specs.Messages.{vocabulary};

use crate::answer::run_answer;
use std::alloc::Global;
use vw_course::Outside;
use vw_courses::Unfinished;
use vw_files::{Probes, check_rows, read_design};
use vw_net::Ordered;
use vw_outside::{Name, Shelf, Sink};
use vw_rows::Rereading;
use vw_trace::write_trace;

/// Checks the stimulus, runs a netlist over it as it is read again, and writes the trace. So many last outputs are probes, but for
/// a trigger behind them, with `until`.
fn sim_netlist<S: Shelf, O: Sink>(
    alloc: Global,
    ordered: Ordered,
    probes: u32,
    until: bool,
    stimulus: &Name,
    unknown: bool,
    outside: &mut Outside<'_, '_, S, O>,
) -> Result<(), Unfinished>
    requires { probes ≤ shown_count until (length ordered.flat.outputs) }
    ensures { Goes S.seen O.seen vocabulary
        (netlist_course stimulus.now (netlist_trace_until until probes unknown) no_links ordered)
        outside.old outside.new result }
{
    let mut rows = check_rows(alloc, outside.shelf, stimulus, &ordered)?;
    let mut again = Rereading {
        stimulus: &mut rows,
        shelf: outside.shelf,
    };
    let written = write_trace(
        alloc,
        &ordered,
        probes,
        until,
        unknown,
        &mut again,
        outside.out,
    );
    drop(ordered);
    run_answer(written)
}

/// Runs a design over a stimulus, free latches starting at `unknown`, and writes its trace with the nets that the probes find. Where
/// there is a trigger, it ends there.
pub fn sim<S: Shelf, O: Sink>(
    alloc: Global,
    design: &Name,
    probes: Probes<'_>,
    stimulus: &Name,
    unknown: bool,
    outside: &mut Outside<'_, '_, S, O>,
) -> Result<(), Unfinished>
    ensures { Goes S.seen O.seen vocabulary
        (over_design_course probes.entry.nets.now design.now stimulus.now (trace_of_until probes.entry.until unknown))
        outside.old outside.new result }
{
    let ordered = read_design(alloc, outside.shelf, design, probes)?;
    let shown = probes.count();
    sim_netlist(
        alloc,
        ordered,
        shown,
        probes.until,
        stimulus,
        unknown,
        outside,
    )
}

//! The command `wave`.
ghost use Rattle.std.specs.Prelude.{◌≡◌, ◌+◌, ℕ, List, length};
ghost use Rattle.vw_course.specs.Goes.{Goes};
ghost use Rattle.vw_front.specs.NamedNetlists.{IsNamedNetlistOf};
ghost use Rattle.vw_net.specs.Cells.{latch_count};
ghost use Rattle.vw_trace.specs.Triggers.{shown_count};
ghost use Rattle.vw_courses.specs.Commands.{design_course, netlist_course, netlist_wave_until, no_links, over_design_course, wave_of_until};
ghost use Rattle.vw_courses.specs.Messages.{vocabulary};
ghost use Rattle.vw_files.specs.Watched.{shown_words};

use crate::answer::run_answer;
use std::alloc::Global;
use vw_course::Outside;
use vw_courses::Unfinished;
use vw_files::{Probes, check_rows, read_named_design};
use vw_front::NamedNetlist;
use vw_net::Ordered;
use vw_outside::{Name, Shelf, Sink};
use vw_rows::Rereading;
use vw_wave::write_wave;

/// Checks the stimulus, runs a netlist over it as it is read again, and writes the wave of the signals with these names: the
/// outputs, but for a trigger, with `until`, and behind them the latches.
fn wave_netlist<S: Shelf, O: Sink>(
    alloc: Global,
    ordered: Ordered,
    names: &[Name],
    until: bool,
    stimulus: &Name,
    unknown: bool,
    outside: &mut Outside<'_, '_, S, O>,
) -> Result<(), Unfinished>
    requires { length names.now ≡ shown_count until (length ordered.flat.outputs)
        + latch_count ordered.flat.cells }
    ensures { Goes S.seen O.seen vocabulary
        (netlist_course stimulus.now (netlist_wave_until until names.now unknown) no_links ordered)
        outside.old outside.new result }
{
    let mut rows = check_rows(alloc, outside.shelf, stimulus, &ordered)?;
    let mut again = Rereading {
        stimulus: &mut rows,
        shelf: outside.shelf,
    };
    let written = write_wave(
        alloc,
        &ordered,
        names,
        until,
        unknown,
        &mut again,
        outside.out,
    );
    drop(ordered);
    run_answer(written)
}

/// The same of the outputs of a design, its probes, and the nets that its latches drive.
fn wave_signals<S: Shelf, O: Sink>(
    alloc: Global,
    named: NamedNetlist,
    probes: Probes<'_>,
    stimulus: &Name,
    unknown: bool,
    outside: &mut Outside<'_, '_, S, O>,
) -> Result<(), Unfinished>
    requires { (text : List ℕ) × IsNamedNetlistOf probes.nets.now text named }
    ensures { (text : List ℕ) (is : IsNamedNetlistOf probes.entry.nets.now text named)
        → Goes S.seen O.seen vocabulary
        (design_course stimulus.now (wave_of_until probes.entry.until (shown_words probes.entry.until probes.entry.nets.now) unknown) no_links is.watched)
        outside.old outside.new result }
{
    let names = named.signals(alloc, probes.shown())?;
    let ordered = named.into_ordered();
    wave_netlist(
        alloc,
        ordered,
        &names,
        probes.until,
        stimulus,
        unknown,
        outside,
    )
}

/// Runs a design over a stimulus, free latches starting at `unknown`, and writes its wave with the nets that the probes find. Where
/// there is a trigger, it ends there.
pub fn wave<S: Shelf, O: Sink>(
    alloc: Global,
    design: &Name,
    probes: Probes<'_>,
    stimulus: &Name,
    unknown: bool,
    outside: &mut Outside<'_, '_, S, O>,
) -> Result<(), Unfinished>
    ensures { Goes S.seen O.seen vocabulary
        (over_design_course probes.entry.nets.now design.now stimulus.now
        (wave_of_until probes.entry.until (shown_words probes.entry.until probes.entry.nets.now) unknown))
        outside.old outside.new result }
{
    let named = read_named_design(alloc, outside.shelf, design, probes)?;
    wave_signals(alloc, named, probes, stimulus, unknown, outside)
}

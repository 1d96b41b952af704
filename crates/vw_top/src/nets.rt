//! The command `nets`.
ghost use Rattle.std.specs.Prelude.{ℕ, List};
ghost use Rattle.vw_course.specs.Goes.{Goes};
ghost use Rattle.vw_front.specs.NamedNetlists.{IsNamedNetlistOf};
ghost use Rattle.vw_outside.specs.Writes.{WritesOut};
ghost use Rattle.vw_courses.specs.Commands.{nets_course, nets_text};
ghost use Rattle.vw_courses.specs.Messages.{vocabulary};

use std::alloc::Global;
use vw_course::{Outside, answer_of};
use vw_courses::Unfinished;
use vw_files::{Probes, read_named_design};
use vw_front::NamedNetlist;
use vw_listing::netlist_text;
use vw_outside::{Name, Shelf, Sink, Unwritten, put_text};

/// Writes the text of the netlist of a design, whose last outputs are the probes.
fn write_nets<O: Sink>(
    alloc: Global,
    named: NamedNetlist,
    probes: Probes<'_>,
    out: &mut O,
) -> Result<(), Unwritten>
    requires { (text : List ℕ) × IsNamedNetlistOf probes.nets.now text named }
    ensures { WritesOut (nets_text probes.entry.nets.now named) (O.seen out.old) (O.seen out.new) result }
{
    let text = netlist_text(
        alloc,
        named.ordered.flat(),
        named.nets.as_slice(),
        named.outputs(),
        probes.nets,
    );
    drop(named);
    put_text(text, out)
}

/// Writes the netlist of a design, whose last outputs are the nets that the probes find.
pub fn nets<S: Shelf, O: Sink>(
    alloc: Global,
    design: &Name,
    probes: Probes<'_>,
    outside: &mut Outside<'_, '_, S, O>,
) -> Result<(), Unfinished>
    ensures { Goes S.seen O.seen vocabulary (nets_course probes.entry.nets.now design.now)
        outside.old outside.new result }
{
    let named = read_named_design(alloc, outside.shelf, design, probes)?;
    answer_of(write_nets(alloc, named, probes, outside.out))
}

//! The commands `--help` and `--version`, which read nothing.
ghost use Rattle.std.specs.Prelude.{◌≡◌};
ghost use Rattle.vw_course.specs.Course.{writes};
ghost use Rattle.vw_course.specs.Goes.{Goes};
ghost use Rattle.vw_outside.specs.Writes.{WritesOut};
ghost use Rattle.vw_courses.specs.Help.{help_text, version_text};
ghost use Rattle.vw_courses.specs.Messages.{vocabulary};

use vw_course::{Outside, answer_of};
use vw_courses::Unfinished;
use vw_outside::{Shelf, Sink, Unwritten, put_all};

/// How the program is called: its commands, their files and settings, and what its exit status means.
fn help_bytes() -> &'static [u8]
    ensures { result.now ≡ help_text }
{
    b"\
vwires: a compiler and an emulator for logic emulators of many FPGAs\n\
\n\
usage: vwires COMMAND FILE.. [SETTING..]\n\
\n\
\x20 sim DESIGN STIM             runs a design, and writes its trace\n\
\x20     [unknown=0|1] [replay=STATE] [until=NET] [probe=NET]..\n\
\x20 wave DESIGN STIM            runs a design, and writes its waveform (VCD)\n\
\x20     [unknown=0|1] [replay=STATE] [until=NET] [probe=NET]..\n\
\x20 grade DESIGN STIM           writes which stuck nets a stimulus does not reveal\n\
\x20     [workers=N] [unknown=0|1] [part=K/N]\n\
\x20 nets DESIGN [probe=NET]..   writes the nets and the cells of a design\n\
\x20 check DESIGN BOARD PLAN [probe=NET]..  checks a plan, and writes its size\n\
\x20 plan DESIGN BOARD [chips=FILE] [probe=NET]..  makes a plan, and writes it\n\
\x20 report DESIGN BOARD         writes a plan in numbers and names, with a bound\n\
\x20     [plan=FILE] [probe=NET]..\n\
\x20 run DESIGN BOARD STIM       runs a design on a board, and writes its trace\n\
\x20     [plan=FILE] [workers=N] [unknown=0|1] [until=NET] [probe=NET]..\n\
\x20 save DESIGN BOARD STIM      runs a design on a board, and writes its state\n\
\x20     [plan=FILE] [workers=N] [unknown=0|1] [every=N] [until=NET]\n\
\x20 resume DESIGN BOARD STATE STIM  goes on from a state, and writes the trace\n\
\x20     [plan=FILE] [workers=N] [unknown=0|1] [until=NET] [probe=NET]..\n\
\x20 emit DESIGN BOARD [plan=FILE]  writes a planned board as a design in BLIF\n\
\x20 demo CELLS                  runs a generated design of 1 to 20000 cells on\n\
\x20     [workers=N]             a generated board, and writes a summary\n\
\x20 --help                      writes this text\n\
\x20 --version                   writes the version\n\
\n\
\x20 DESIGN         a design in BLIF, with one clock at most\n\
\x20 BOARD          chips, and the links between them and the host\n\
\x20 STIM           the bits of the inputs, a line for each clock\n\
\x20 PLAN           the chip of each cell, and when each wire has which pin\n\
\x20 STATE          a clock and the bits of the latches, as save writes it\n\
\n\
\x20 unknown=0|1    the value that latches start at which have none (0)\n\
\x20 probe=NET      a net that is watched beside the outputs, up to 64 times\n\
\x20 plan=FILE      the plan to run by (one is made)\n\
\x20 chips=FILE     the chip of each cell, as in a plan (they are chosen)\n\
\x20 replay=STATE   the state to go on from, over the rows behind it (the start)\n\
\x20 until=NET      ends behind the first clock in which NET is 1 (behind the last)\n\
\x20 every=N        a state for each N clocks, too (only one at the end)\n\
\x20 part=K/N       the Kth of N shares of the faults, N up to 65536 (all)\n\
\x20 workers=N      how many threads run the chips or grade, 1 to 64 (4)\n\
\n\
The exit status is 0 where the command was carried out. A design (1), words\n\
(2), a board (3), a plan (4) or a stimulus (5) was refused; the cells have no\n\
room on the board (6); a read (7) or a write (8) failed; memory ran out (9);\n\
an emitted board is too large for a design (10); a state was refused (11).\n\
After each status but 0, standard error has one line that says why.\n\
\n\
docs/formats.md has the formats of all files, and each message.\n"
}

/// The program and its version.
fn version_bytes() -> &'static [u8]
    ensures { result.now ≡ version_text }
{
    b"vwires 1.0.0\n"
}

/// Writes a text that needs no memory.
fn put_constant<O: Sink>(text: &[u8], out: &mut O) -> Result<(), Unwritten>
    ensures { WritesOut text.now (O.seen out.old) (O.seen out.new) result }
{
    put_all(out, text)?;
    Ok(())
}

/// Writes how the program is called.
pub fn help<S: Shelf, O: Sink>(outside: &mut Outside<'_, '_, S, O>) -> Result<(), Unfinished>
    ensures { Goes S.seen O.seen vocabulary (writes help_text) outside.old outside.new result }
{
    answer_of(put_constant(help_bytes(), outside.out))
}

/// Writes the version of the program.
pub fn version<S: Shelf, O: Sink>(outside: &mut Outside<'_, '_, S, O>) -> Result<(), Unfinished>
    ensures { Goes S.seen O.seen vocabulary (writes version_text) outside.old outside.new result }
{
    answer_of(put_constant(version_bytes(), outside.out))
}

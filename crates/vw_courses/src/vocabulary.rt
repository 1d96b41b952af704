//! The files that commands read, and the reasons for which they refuse.
ghost use Rattle.std.specs.Prelude.{◌≡◌, IfOk};
ghost use Rattle.vw_courses.specs.Messages.{reason_line};
ghost use Rattle.vw_courses.specs.declared.vocabulary.Reason.TheVariants.{Usage};

use std::alloc::{AllocError, Global};
use vw_board::BoardFault;
use vw_check::PlanFault;
use vw_course::{CommandFile, RefusalReason};
use vw_emit::EmitFault;
use vw_front::NetlistFault;
use vw_plantext::PlanTextFault;
use vw_resume::StateFault;
use vw_rows::StimFault;
use vw_run::CompileFault;

/// A file of a command, by its part in it.
#[derive(Clone, Copy, Debug, PartialEq, Eq)]
pub enum File {
    Design,
    Board,
    Plan,
    State,
    Stimulus,
}

impl CommandFile for File {
    ghost use Rattle.vw_courses.specs.Messages.{file_line};

    ghost fault_line = { file_line };

    fn read_line(&self) -> &'static [u8] {
        match self {
            File::Design => b"read fault: design\n",
            File::Board => b"read fault: board\n",
            File::Plan => b"read fault: plan\n",
            File::State => b"read fault: state\n",
            File::Stimulus => b"read fault: stimulus\n",
        }
    }
}

/// What is wrong with the words or the files of a command: a variant for each kind of fault, with the fault of the
/// crate that finds it. It has no `Debug`, since a name in a fault has none.
#[derive(Drop)]
pub enum Reason {
    /// The design text has no netlist with an order of its gates, for this fault.
    Design(NetlistFault),
    /// The words spell no command; the number of the first wrong word, from 1.
    Usage(u64),
    /// The board text has this fault.
    Board(BoardFault),
    /// The plan text has this fault.
    PlanText(PlanTextFault),
    /// The plan has this fault.
    Plan(PlanFault),
    /// The stimulus text has this fault.
    Stimulus(StimFault),
    /// The design has no plan on the board, since its cells have no room.
    Fit(CompileFault),
    /// The planned board isn't written, since it or its text is too large.
    Emit(EmitFault),
    /// The state can't be gone on from, for this fault.
    State(StateFault),
}

/// The message line for words that spell no command, the word at this place being the first wrong one.
fn usage_line(alloc: Global, place: u64) -> Result<Vec<u8>, AllocError>
    ensures { IfOk result (λ line. line.items ≡ reason_line (Usage place)) }
{
    let line = format!(in alloc; "usage: word {place}\n")?;
    Ok(line.into_bytes())
}

impl RefusalReason for Reason {
    ghost use Rattle.vw_courses.specs.Messages.{reason_status, reason_line, reason_some, reason_few};

    ghost exit_status = { reason_status };

    ghost message = { reason_line };

    ghost some = { reason_some };

    ghost few = { reason_few };

    fn status(&self) -> u8 {
        match self {
            Reason::Design(_) => 1,
            Reason::Usage(_) => 2,
            Reason::Board(_) => 3,
            Reason::PlanText(_) | Reason::Plan(_) => 4,
            Reason::Stimulus(_) => 5,
            Reason::Fit(_) => 6,
            Reason::Emit(_) => 10,
            Reason::State(_) => 11,
        }
    }

    fn line(&self, alloc: Global) -> Result<Vec<u8>, AllocError> {
        match self {
            Reason::Design(fault) => fault.text(alloc),
            Reason::Usage(place) => usage_line(alloc, *place),
            Reason::Board(fault) => fault.text(alloc),
            Reason::PlanText(fault) => fault.text(alloc),
            Reason::Plan(fault) => fault.text(alloc),
            Reason::Stimulus(fault) => fault.text(alloc),
            Reason::Fit(fault) => fault.text(alloc),
            Reason::Emit(fault) => fault.text(alloc),
            Reason::State(fault) => fault.text(alloc),
        }
    }
}

/// Why a command wasn't carried out.
pub type Unfinished = vw_course::Unfinished<File, Reason>;

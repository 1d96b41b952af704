ghost use Rattle.std.specs.Prelude.{◌≡◌, IfOk};
ghost use Rattle.vw_run.specs.declared.fault.CompileFault.TheVariants.{TooManyCells};
ghost use Rattle.vw_run.specs.Messages.{fault_text};

use std::alloc::{AllocError, Global};
use vw_net::Ordered;
use vw_plan::Board;

/// Why a design has no plan on a board.
#[derive(Clone, Copy, Debug, PartialEq, Eq)]
pub enum CompileFault {
    /// There are more cells than all chips have room for.
    TooManyCells {
        cells: u64,
        /// The number of cells that all chips have room for.
        room: u64,
    },
    NoMemory,
}

impl From<AllocError> for CompileFault {
    ghost use Rattle.vw_run.specs.declared.fault.CompileFault.TheVariants.{NoMemory};

    ghost from_gives = { λ _ e. e ≡ NoMemory };

    fn from(_: AllocError) -> Self {
        CompileFault::NoMemory
    }
}

/// The message of cells that have no room.
fn of_room(alloc: Global, cells: u64, room: u64) -> Result<Vec<u8>, AllocError>
    ensures { IfOk result (λ line. line.items ≡ fault_text (TooManyCells cells room)) }
{
    let line = format!(in alloc; "fit: {cells} cells, room for {room}\n")?;
    Ok(line.into_bytes())
}

impl CompileFault {
    /// The message line, with the end of the line.
    pub fn text(&self, alloc: Global) -> Result<Vec<u8>, AllocError>
        ensures { IfOk result (λ line. line.items ≡ fault_text self.now) }
    {
        match *self {
            CompileFault::TooManyCells { cells, room } => of_room(alloc, cells, room),
            CompileFault::NoMemory => b"out of memory\n".to_vec(alloc),
        }
    }
}

/// A design that has no plan, with its board.
#[derive(Drop)]
pub struct CompileRefused {
    pub fault: CompileFault,
    pub ordered: Ordered,
    pub board: Board,
}

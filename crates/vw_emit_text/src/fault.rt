ghost use Rattle.std.specs.Prelude.{◌≡◌, IfOk};
ghost use Rattle.vw_emit_text.specs.Messages.{fault_text};
ghost use Rattle.vw_emit_text.specs.declared.fault.EmitFault.TheVariants.{TooLong, TooManyCells, TooManyOutputs};

use std::alloc::{AllocError, AllocFailed, Global};
use thiserror::Error;

/// Why a planned board isn't written: the first limit of designs that its text is above.
#[derive(Clone, Copy, Debug, PartialEq, Eq, Error)]
pub enum EmitFault {
    /// It has so many cells, more than 65,536.
    #[error("{0} cells")]
    TooManyCells(u128),
    /// It has so many outputs and latches together, more than 4,096.
    #[error("{0} outputs")]
    TooManyOutputs(u64),
    /// Its text has so many bytes, more than 16,777,216.
    #[error("{0} bytes")]
    TooLong(u128),
    #[error("out of memory")]
    NoMemory,
}

impl From<AllocError> for EmitFault {
    ghost use Rattle.vw_emit_text.specs.declared.fault.EmitFault.TheVariants.{NoMemory};

    ghost from_gives = { λ _ e. e ≡ NoMemory };

    fn from(_: AllocError) -> Self {
        EmitFault::NoMemory
    }
}

impl<T: Drop> From<AllocFailed<T>> for EmitFault {
    ghost use Rattle.vw_emit_text.specs.declared.fault.EmitFault.TheVariants.{NoMemory};

    ghost from_gives = { λ _ e. e ≡ NoMemory };

    fn from(_: AllocFailed<T>) -> Self {
        EmitFault::NoMemory
    }
}

/// The line of a number of cells.
fn cells_line(alloc: Global, cells: u128) -> Result<Vec<u8>, AllocError>
    ensures { IfOk result (λ line. line.items ≡ fault_text (TooManyCells cells)) }
{
    Ok(format!(in alloc; "emit 1: {cells} cells\n")?.into_bytes())
}

/// The line of a number of outputs.
fn outputs_line(alloc: Global, outputs: u64) -> Result<Vec<u8>, AllocError>
    ensures { IfOk result (λ line. line.items ≡ fault_text (TooManyOutputs outputs)) }
{
    Ok(format!(in alloc; "emit 2: {outputs} outputs\n")?.into_bytes())
}

/// The line of a number of bytes.
fn bytes_line(alloc: Global, bytes: u128) -> Result<Vec<u8>, AllocError>
    ensures { IfOk result (λ line. line.items ≡ fault_text (TooLong bytes)) }
{
    Ok(format!(in alloc; "emit 3: {bytes} bytes\n")?.into_bytes())
}

impl EmitFault {
    ghost use Rattle.vw_emit_text.specs.Messages.{fault_text};

    /// The message line, with the end of the line.
    pub fn text(&self, alloc: Global) -> Result<Vec<u8>, AllocError>
        ensures { IfOk result (λ line. line.items ≡ fault_text self.now) }
    {
        match *self {
            EmitFault::TooManyCells(cells) => cells_line(alloc, cells),
            EmitFault::TooManyOutputs(outputs) => outputs_line(alloc, outputs),
            EmitFault::TooLong(bytes) => bytes_line(alloc, bytes),
            EmitFault::NoMemory => b"out of memory\n".to_vec(alloc),
        }
    }
}

ghost use Rattle.std.specs.Prelude.{◌≡◌, IfOk};
ghost use Rattle.vw_flat.specs.Messages.{fault_text, no_net_line};

use std::alloc::{AllocError, AllocFailed, Global};
use vw_outside::Name;

/// Why a design has no netlist with these probes.
#[derive(Drop)]
pub enum FlatFault {
    /// This probe finds no net; it is the first such one.
    NoProbe(Name),
    NoMemory,
}

impl From<AllocError> for FlatFault {
    ghost use Rattle.vw_flat.specs.declared.fault.FlatFault.TheVariants.{NoMemory};

    ghost from_gives = { λ _ fault. fault ≡ NoMemory };

    fn from(_: AllocError) -> Self {
        FlatFault::NoMemory
    }
}

impl<T: Drop> From<AllocFailed<T>> for FlatFault {
    ghost use Rattle.vw_flat.specs.declared.fault.FlatFault.TheVariants.{NoMemory};

    ghost from_gives = { λ _ fault. fault ≡ NoMemory };

    fn from(_: AllocFailed<T>) -> Self {
        FlatFault::NoMemory
    }
}

/// The message line of a probe that finds no net, with the end of the line.
pub fn no_net_line(alloc: Global, probe: &Name) -> Result<Vec<u8>, AllocError>
    ensures { IfOk result (λ line. line.items ≡ no_net_line probe.now) }
{
    let mut line = b"design 26: no net ".to_vec(alloc)?;
    line.extend_from_slice(probe.as_slice())?;
    line.push(b'\n')?;
    Ok(line)
}

impl FlatFault {
    /// The message line, with the end of the line.
    pub fn text(&self, alloc: Global) -> Result<Vec<u8>, AllocError>
        ensures { IfOk result (λ line. line.items ≡ fault_text self.now) }
    {
        match self {
            FlatFault::NoProbe(probe) => no_net_line(alloc, probe),
            FlatFault::NoMemory => Ok(b"out of memory\n".to_vec(alloc)?),
        }
    }
}

ghost use Rattle.std.specs.Prelude.{◌≡◌, IfOk};
ghost use Rattle.vw_front.specs.Messages.{fault_text};

use std::alloc::{AllocError, Global};
use vw_blif::TextFault;
use vw_elab::{DesignFault, line_of_names};
use vw_flat::no_net_line;
use vw_net::Sequence;
use vw_outside::Name;

/// Why a text has no netlist with some probes.
#[derive(Drop)]
pub enum NetlistFault {
    /// The text has this fault.
    Text(TextFault),
    /// The design has this fault.
    Design(DesignFault),
    /// This probe finds no net in the design; it is the first such one.
    NoNet(Name),
    /// Gates of the design read each other in a circle: the nets that they drive, as they are printed. Each reads the
    /// next one, and the last one the first.
    Loop(Sequence<Name>),
    NoMemory,
}

impl NetlistFault {
    /// The message line, with the end of the line.
    pub fn text(&self, alloc: Global) -> Result<Vec<u8>, AllocError>
        ensures { IfOk result (λ line. line.items ≡ fault_text self.now) }
    {
        match self {
            NetlistFault::Text(fault) => fault.text(alloc),
            NetlistFault::Design(fault) => fault.text(alloc),
            NetlistFault::NoNet(probe) => no_net_line(alloc, probe),
            NetlistFault::Loop(names) => line_of_names(alloc, b"design 25: loop", names.as_slice()),
            NetlistFault::NoMemory => b"out of memory\n".to_vec(alloc),
        }
    }
}

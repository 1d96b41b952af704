//! Names of nets, as they stand in texts.
ghost use Rattle.std.specs.Prelude.{◌≡◌, ◌++◌, OnOk};
ghost use Rattle.vw_gen.specs.Nets.{net_name};

use std::alloc::AllocError;
use vw_text::push_number;

/// Appends the name of a net.
pub(crate) fn push_net(text: &mut Vec<u8>, net: u32) -> Result<(), AllocError>
    ensures { OnOk result (text.new.items ≡ text.old.items ++ net_name net) }
{
    if net < 8 {
        text.push(b'i')?;
        push_number(text, net)
    } else {
        text.push(b'c')?;
        push_number(text, net - 8)
    }
}

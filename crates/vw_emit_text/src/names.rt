//! The nets of the nodes' models and of the board, and how they are spelled.
ghost use Rattle.std.specs.Prelude.{◌≡◌, ◌++◌, ◌∷◌, OnOk};
ghost use Rattle.vw_emit_names.specs.Spelled.{spelled};
ghost use Rattle.vw_emit_text.specs.Steps.{local_of, net_word};

use crate::words::{push_one, push_three, push_two};
use std::alloc::AllocError;

/// A net of a node's own model, by what it is there, as the definitions have it.
#[derive(Clone, Copy)]
pub enum Name {
    /// A column of the design.
    Column(u64),
    /// A stage of the sequencer, by its microcycle.
    Moment(u64),
    /// A gate, a latch, and what the latch takes next, by the number of the cell.
    Gate(u64),
    Kept(u64),
    Coming(u64),
    /// The register of a hop, by the numbers of its wire and of the hop, and what it takes next.
    Held(u64, u64),
    Caught(u64, u64),
    /// What leaves by a pin of a link, up to a hop of it by its number, and that bit so many microcycles and one more later.
    Sent(u64, u64, u64),
    Delayed(u64, u64, u64),
    /// A pin of a link, at the node that it reaches, and at the node that it leaves.
    PinIn(u64, u64),
    PinOut(u64, u64),
    /// An output of the design.
    Output(u64),
}

/// Appends a byte, and a name behind it.
pub(crate) fn push_name(text: &mut Vec<u8>, before: u8, name: Name) -> Result<(), AllocError>
    ensures { OnOk result (text.new.items ≡ text.old.items ++ before ∷ spelled (local_of name)) }
{
    match name {
        Name::Column(number) => push_one(text, before, b'x', number),
        Name::Moment(microcycle) => push_one(text, before, b't', microcycle),
        Name::Gate(cell) => push_one(text, before, b'c', cell),
        Name::Kept(cell) => push_one(text, before, b'q', cell),
        Name::Coming(cell) => push_one(text, before, b'l', cell),
        Name::Held(wire, hop) => push_two(text, before, b'r', wire, hop),
        Name::Caught(wire, hop) => push_two(text, before, b'n', wire, hop),
        Name::Sent(link, pin, number) => push_three(text, before, b'e', link, pin, number),
        Name::Delayed(link, pin, number) => push_three(text, before, b'd', link, pin, number),
        Name::PinIn(link, pin) => push_two(text, before, b'i', link, pin),
        Name::PinOut(link, pin) => push_two(text, before, b'o', link, pin),
        Name::Output(output) => push_one(text, before, b'y', output),
    }
}

/// A net of the board.
#[derive(Clone, Copy)]
pub enum Net {
    /// One with the name that it has at the host: a column or an output.
    Own(Name),
    /// A pin of a link.
    Pin(u64, u64),
    /// One that shows a latch, by its number among latches.
    Shown(u64),
}

/// Appends a byte, and the name of a net of the board behind it.
pub(crate) fn push_net(text: &mut Vec<u8>, before: u8, net: Net) -> Result<(), AllocError>
    ensures { OnOk result (text.new.items ≡ text.old.items ++ before ∷ net_word net) }
{
    match net {
        Net::Own(name) => push_name(text, before, name),
        Net::Pin(link, pin) => push_two(text, before, b'p', link, pin),
        Net::Shown(latch) => push_one(text, before, b's', latch),
    }
}

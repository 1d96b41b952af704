//! The actions that codes stand for.
ghost use Rattle.std.specs.Prelude.{◌≡◌, ◌≤◌, length, take, slice_get, slice_index_or};
ghost use Rattle.vw_prog.specs.Unfolded.{action_by, send_of, turns_of, wide_number};

use crate::action::Action;
use crate::code::{Code, Op, WideGate};
use crate::naming::slot_at;
use crate::shift::ShiftLoop;

/// How often ops turn a loop.
fn turns_of(ops: &[Op], place: usize) -> usize
    ensures { result ≡ turns_of place ops.now }
{
    let mut turns = 0;
    for one in ops {
        if let Op::Send(own) = one {
            if *own == place {
                turns += 1;
            }
        }
    }
    turns
}

/// The send of a loop that was turned so often.
fn send_of(loops: &[ShiftLoop], place: usize, turns: usize) -> Action
    ensures { result ≡ send_of (slice_get loops.now place) turns }
{
    match loops.get(place) {
        Some(one) => Action::Send {
            link: one.link(),
            pin: one.pin(),
            net: one.net_at(turns),
        },
        None => Action::Step,
    }
}

/// The cell number of a wide gate.
fn wide_number(wide: &[WideGate], place: usize) -> u32
    ensures { result ≡ wide_number (slice_get wide.now place) }
{
    match wide.get(place) {
        Some(gate) => gate.number,
        None => 0,
    }
}

/// The action of an op behind so many, in a netlist with so many inputs. It looks through the ops before a send.
pub fn action_by(inputs: u32, code: &Code, before: usize, one: Op) -> Action
    requires { before ≤ length code.now.ops.items }
    ensures { result ≡ action_by inputs code.now (take before code.now.ops.items) one }
{
    match one {
        Op::Run { slot, .. } => Action::Evaluate(slot_at(&code.nets, slot).saturating_sub(inputs)),
        Op::Wide(place) => Action::Evaluate(wide_number(&code.wide, place)),
        Op::Send(place) => {
            let turns = turns_of(&code.ops[..before], place);
            send_of(&code.loops, place, turns)
        }
        Op::Take { link, pin, slot } => Action::Take {
            link,
            pin,
            net: slot_at(&code.nets, slot),
        },
        Op::Step => Action::Step,
    }
}

//! The scripts of links, worked out by the simulator and the programs of nodes.
ghost use Rattle.std.specs.Prelude.{◌≡◌, ◌<◌, ◌+◌, ◌++◌, [], length, map, slice_index_or, IfOk, OnOk};
ghost use Rattle.std.specs.Bool.{OnTrue};
ghost use Rattle.std.specs.List.{All};
ghost use Rattle.vw_prog.specs.Scripts.{planned_of, script};
ghost use Rattle.vw_prog.specs.Timetable.{passes};
ghost use Rattle.vw_crew_tests.specs.Slots.{entry_slot, slots, word_in};

use std::alloc::{AllocError, Global};
use std::test::Fail;
use vw_net::Bits;
use vw_prog::{Action, Job, Programs, Word, passes_have_two_ends};
use vw_sim::step;

/// The net and the pin of what is sent over a link in each clock.
#[derive(Clone, Copy)]
pub struct Slot {
    pub net: u32,
    pub pin: u32,
}

/// The actions of a node.
fn actions_of(alloc: Global, programs: &Programs, node: u32) -> Result<Vec<Action>, AllocError>
    requires { node < length programs.now.lists }
    ensures { IfOk result (λ actions. actions.items ≡ slice_index_or programs.now.lists node []) }
{
    let mut actions = Vec::new(alloc);
    for number in 0..programs.count(node) {
        actions.push(programs.action(node, number))?;
    }
    Ok(actions)
}

/// What a program sends over a link, in order.
fn slots_of(alloc: Global, actions: &[Action], number: u32) -> Result<Vec<Slot>, AllocError>
    ensures { IfOk result (λ list. list.items ≡ slots number actions.now) }
{
    let mut list = Vec::new(alloc);
    for action in actions {
        if let Action::Send { link, pin, net } = action {
            if *link == number {
                list.push(Slot {
                    net: *net,
                    pin: *pin,
                })?;
            }
        }
    }
    Ok(list)
}

/// Whether all nets are below a number.
fn are_below(slots: &[Slot], nets: usize) -> bool
    ensures { OnTrue result (All (λ slot. slot.net < nets) slots.now) }
{
    for slot in slots {
        if slot.net as usize >= nets {
            return false;
        }
    }
    true
}

/// Puts the words of a clock behind others.
fn add_words(
    clock: u64,
    slots: &[Slot],
    values: &Bits,
    words: &mut Vec<Word>,
) -> Result<(), AllocError>
    requires { All (λ slot. slot.net < length values.now) slots.now }
    ensures { OnOk result (words.new.items
        ≡ words.old.items ++ map (word_in clock values.now) slots.now) }
{
    let bits = values.as_slice();
    for slot in slots {
        words.push(Word::make(clock, slot.net, slot.pin, bits[slot.net as usize]))?;
    }
    Ok(())
}

/// The words of all clocks over a link, of which these are the slots.
fn words_of(alloc: Global, job: &Job, link: u32, slots: &[Slot]) -> Result<Vec<Word>, AllocError>
    requires slots { slots.now ≡ map entry_slot (passes (planned_of job.now) link) }
    requires below { All (λ slot. slot.net < job.now.checked.ordered.flat.inputs
        + length job.now.checked.ordered.flat.cells) slots.now }
    ensures { IfOk result (λ words. words.items ≡ script job.now link) }
{
    let ordered = job.checked().ordered();
    let nets = ordered.flat().inputs() as usize + ordered.flat().cells().len();
    let mut state = Bits::of(job.start.as_slice().to_vec(alloc)?);
    let mut values = Bits::of(vec![in alloc; false; nets]?);
    let mut words = Vec::new(alloc);
    for clock in 0..job.rows.len() {
        step(ordered, job.rows.row(clock), &mut state, &mut values);
        add_words(job.first + clock as u64, slots, &values, &mut words)?;
    }
    Ok(words)
}

/// The script of a link.
pub fn script_of(alloc: Global, job: &Job, link: u32) -> Result<Vec<Word>, Fail>
    requires { link < length job.now.checked.board.links }
    ensures { IfOk result (λ words. words.items ≡ script job.now link) }
{
    passes_have_two_ends();
    let flat = job.checked().ordered().flat();
    let nets = flat.inputs() as usize + flat.cells().len();
    let programs = Programs::build(alloc, job.checked())?;
    let from = job.checked().board().links()[link as usize].from();
    let actions = actions_of(alloc, &programs, from)?;
    let slots = slots_of(alloc, &actions, link)?;
    if !are_below(&slots, nets) {
        return Err("a net that is none".into());
    }
    Ok(words_of(alloc, job, link, &slots)?)
}

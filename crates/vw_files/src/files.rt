//! The files of commands, each read and judged at its own stage.
ghost use Rattle.std.specs.Prelude.{◌≡◌, IfOk};
ghost use Rattle.vw_board.specs.BoardText.{Spells as SpellsBoard};
ghost use Rattle.vw_course.specs.Stages.{EndsJudging, EndsStage};
ghost use Rattle.vw_front.specs.Designs.{IsNetlistOf};
ghost use Rattle.vw_front.specs.NamedNetlists.{IsNamedNetlistOf};
ghost use Rattle.vw_plantext.specs.ChipsText.{SpellsChips};
ghost use Rattle.vw_plantext.specs.PlanText.{Spells as SpellsPlan};
ghost use Rattle.vw_rows.specs.Standing.{IsAtStart, StandsIn};
ghost use Rattle.vw_courses.specs.Kinds.{IsBadDesign, IsBadBoard, IsBadChipsText, IsBadPlanText, IsBadState, IsBadStimulus, IsStateOf};

use crate::probes::Probes;
use std::alloc::Global;
use vw_blif::TextFault;
use vw_board::BoardFault;
use vw_courses::{File, Reason, Unfinished};
use vw_front::{NamedNetlist, NetlistFault, named_netlist_of_text, netlist_of_text};
use vw_net::{Ordered, Sequence};
use vw_outside::{Name, Shelf, TextRefused, read_text};
use vw_plan::{Board, Plan};
use vw_plantext::PlanTextFault;
use vw_resume::{LONGEST_STATE, State, StateFault, spelled_short};
use vw_rows::{StimFault, Stimulus};

/// The most bytes that a design text has.
const DESIGN_LIMIT: u64 = 16_777_216;

/// The most bytes that a board text has.
const BOARD_LIMIT: u64 = 1_048_576;

/// The most bytes that a plan text has.
const PLAN_LIMIT: u64 = 67_108_864;

/// The netlist of the design that a text spells with the nets that probes find, with an order of its gates.
fn design_of_text(alloc: Global, text: &[u8], probes: Probes<'_>) -> Result<Ordered, Unfinished>
    ensures { EndsJudging (IsNetlistOf probes.entry.nets.now text.now)
        (IsBadDesign probes.entry.nets.now text.now) result }
{
    match netlist_of_text(alloc, text, probes.nets) {
        Ok(ordered) => Ok(ordered),
        Err(NetlistFault::NoMemory) => Err(Unfinished::NoMemory),
        Err(fault) => Err(Unfinished::Refused(Reason::Design(fault))),
    }
}

/// Reads the design, and finds the nets of probes in it. They are the last outputs of its netlist.
pub fn read_design<S: Shelf>(
    alloc: Global,
    shelf: &mut S,
    name: &Name,
    probes: Probes<'_>,
) -> Result<Ordered, Unfinished>
    ensures { EndsStage File.Design name.now
        (IsNetlistOf probes.entry.nets.now) (IsBadDesign probes.entry.nets.now)
        (S.seen shelf.old) (S.seen shelf.new) result }
{
    match read_text(alloc, shelf, name, DESIGN_LIMIT) {
        Ok(text) => design_of_text(alloc, &text, probes),
        Err(TextRefused::TooLarge) => {
            let fault = NetlistFault::Text(TextFault::TooLarge);
            Err(Unfinished::Refused(Reason::Design(fault)))
        }
        Err(TextRefused::ReadFault) => Err(Unfinished::ReadFault(File::Design)),
        Err(TextRefused::NoMemory) => Err(Unfinished::NoMemory),
    }
}

/// The netlist of the design that a text spells with the nets that probes find, with the names of its nets.
fn named_design_of_text(
    alloc: Global,
    text: &[u8],
    probes: Probes<'_>,
) -> Result<NamedNetlist, Unfinished>
    ensures { EndsJudging (IsNamedNetlistOf probes.entry.nets.now text.now)
        (IsBadDesign probes.entry.nets.now text.now) result }
{
    match named_netlist_of_text(alloc, text, probes.nets) {
        Ok(named) => Ok(named),
        Err(NetlistFault::NoMemory) => Err(Unfinished::NoMemory),
        Err(fault) => Err(Unfinished::Refused(Reason::Design(fault))),
    }
}

/// Reads the design as `read_design` does, and keeps the names of its nets.
pub fn read_named_design<S: Shelf>(
    alloc: Global,
    shelf: &mut S,
    name: &Name,
    probes: Probes<'_>,
) -> Result<NamedNetlist, Unfinished>
    ensures { EndsStage File.Design name.now
        (IsNamedNetlistOf probes.entry.nets.now) (IsBadDesign probes.entry.nets.now)
        (S.seen shelf.old) (S.seen shelf.new) result }
{
    match read_text(alloc, shelf, name, DESIGN_LIMIT) {
        Ok(text) => named_design_of_text(alloc, &text, probes),
        Err(TextRefused::TooLarge) => {
            let fault = NetlistFault::Text(TextFault::TooLarge);
            Err(Unfinished::Refused(Reason::Design(fault)))
        }
        Err(TextRefused::ReadFault) => Err(Unfinished::ReadFault(File::Design)),
        Err(TextRefused::NoMemory) => Err(Unfinished::NoMemory),
    }
}

/// The board that a text spells.
fn board_of_text(alloc: Global, text: &[u8]) -> Result<Board, Unfinished>
    ensures { EndsJudging (SpellsBoard text.now) (IsBadBoard text.now) result }
{
    match vw_board::read(alloc, text) {
        Ok(board) => Ok(board),
        Err(BoardFault::NoMemory) => Err(Unfinished::NoMemory),
        Err(fault) => Err(Unfinished::Refused(Reason::Board(fault))),
    }
}

/// Reads the board.
pub fn read_board<S: Shelf>(alloc: Global, shelf: &mut S, name: &Name) -> Result<Board, Unfinished>
    ensures { EndsStage File.Board name.now
        SpellsBoard IsBadBoard
        (S.seen shelf.old) (S.seen shelf.new) result }
{
    match read_text(alloc, shelf, name, BOARD_LIMIT) {
        Ok(text) => board_of_text(alloc, &text),
        Err(TextRefused::TooLarge) => {
            Err(Unfinished::Refused(Reason::Board(BoardFault::TooLarge)))
        }
        Err(TextRefused::ReadFault) => Err(Unfinished::ReadFault(File::Board)),
        Err(TextRefused::NoMemory) => Err(Unfinished::NoMemory),
    }
}

/// The plan that a text spells.
fn plan_of_text(alloc: Global, text: &[u8]) -> Result<Plan, Unfinished>
    ensures { EndsJudging (SpellsPlan text.now) (IsBadPlanText text.now) result }
{
    match vw_plantext::read(alloc, text) {
        Ok(plan) => Ok(plan),
        Err(PlanTextFault::NoMemory) => Err(Unfinished::NoMemory),
        Err(fault) => Err(Unfinished::Refused(Reason::PlanText(fault))),
    }
}

/// Reads the plan. Whether it is sound isn't looked at.
pub fn read_plan<S: Shelf>(alloc: Global, shelf: &mut S, name: &Name) -> Result<Plan, Unfinished>
    ensures { EndsStage File.Plan name.now
        SpellsPlan IsBadPlanText
        (S.seen shelf.old) (S.seen shelf.new) result }
{
    match read_text(alloc, shelf, name, PLAN_LIMIT) {
        Ok(text) => plan_of_text(alloc, &text),
        Err(TextRefused::TooLarge) => {
            Err(Unfinished::Refused(Reason::PlanText(PlanTextFault::TooLarge)))
        }
        Err(TextRefused::ReadFault) => Err(Unfinished::ReadFault(File::Plan)),
        Err(TextRefused::NoMemory) => Err(Unfinished::NoMemory),
    }
}

/// Reads the plan with a name of these bytes, which a setting gives.
pub fn read_given_plan<S: Shelf>(
    alloc: Global,
    shelf: &mut S,
    name: &[u8],
) -> Result<Plan, Unfinished>
    ensures { EndsStage File.Plan name.now
        SpellsPlan IsBadPlanText
        (S.seen shelf.old) (S.seen shelf.new) result }
{
    match name.to_vec(alloc) {
        Ok(bytes) => read_plan(alloc, shelf, &Name::of(bytes)),
        Err(_) => Err(Unfinished::NoMemory),
    }
}

/// The chips that a text has in its one line.
fn chips_of_text(alloc: Global, text: &[u8]) -> Result<Sequence<u32>, Unfinished>
    ensures { EndsJudging (SpellsChips text.now) (IsBadChipsText text.now) result }
{
    match vw_plantext::read_chips(alloc, text) {
        Ok(chips) => Ok(chips),
        Err(PlanTextFault::NoMemory) => Err(Unfinished::NoMemory),
        Err(fault) => Err(Unfinished::Refused(Reason::PlanText(fault))),
    }
}

/// Reads the chips of the cells. Whether the cells and the chips exist isn't looked at.
fn read_chips<S: Shelf>(
    alloc: Global,
    shelf: &mut S,
    name: &Name,
) -> Result<Sequence<u32>, Unfinished>
    ensures { EndsStage File.Plan name.now
        SpellsChips IsBadChipsText
        (S.seen shelf.old) (S.seen shelf.new) result }
{
    match read_text(alloc, shelf, name, PLAN_LIMIT) {
        Ok(text) => chips_of_text(alloc, &text),
        Err(TextRefused::TooLarge) => {
            Err(Unfinished::Refused(Reason::PlanText(PlanTextFault::TooLarge)))
        }
        Err(TextRefused::ReadFault) => Err(Unfinished::ReadFault(File::Plan)),
        Err(TextRefused::NoMemory) => Err(Unfinished::NoMemory),
    }
}

/// Reads the chips with a name of these bytes, which a setting gives.
pub fn read_given_chips<S: Shelf>(
    alloc: Global,
    shelf: &mut S,
    name: &[u8],
) -> Result<Sequence<u32>, Unfinished>
    ensures { EndsStage File.Plan name.now
        SpellsChips IsBadChipsText
        (S.seen shelf.old) (S.seen shelf.new) result }
{
    match name.to_vec(alloc) {
        Ok(bytes) => read_chips(alloc, shelf, &Name::of(bytes)),
        Err(_) => Err(Unfinished::NoMemory),
    }
}

/// The state that a text spells, of a design with so many latches.
fn state_of_text(alloc: Global, text: &[u8], latches: u32) -> Result<State, Unfinished>
    ensures { EndsJudging (IsStateOf latches text.now) (IsBadState latches text.now) result }
{
    match State::read(alloc, text, latches) {
        Ok(state) => Ok(state),
        Err(StateFault::NoMemory) => Err(Unfinished::NoMemory),
        Err(fault) => Err(Unfinished::Refused(Reason::State(fault))),
    }
}

/// Reads the state of a design with so many latches.
pub fn read_state<S: Shelf>(
    alloc: Global,
    shelf: &mut S,
    name: &Name,
    latches: u32,
) -> Result<State, Unfinished>
    ensures { EndsStage File.State name.now
        (IsStateOf latches) (IsBadState latches)
        (S.seen shelf.old) (S.seen shelf.new) result }
{
    spelled_short();
    match read_text(alloc, shelf, name, LONGEST_STATE as u64) {
        Ok(text) => state_of_text(alloc, &text, latches),
        Err(TextRefused::TooLarge) => Err(Unfinished::Refused(Reason::State(StateFault::BadText))),
        Err(TextRefused::ReadFault) => Err(Unfinished::ReadFault(File::State)),
        Err(TextRefused::NoMemory) => Err(Unfinished::NoMemory),
    }
}

/// Reads the state with a name of these bytes, which a setting gives.
pub fn read_given_state<S: Shelf>(
    alloc: Global,
    shelf: &mut S,
    name: &[u8],
    latches: u32,
) -> Result<State, Unfinished>
    ensures { EndsStage File.State name.now
        (IsStateOf latches) (IsBadState latches)
        (S.seen shelf.old) (S.seen shelf.new) result }
{
    match name.to_vec(alloc) {
        Ok(bytes) => read_state(alloc, shelf, &Name::of(bytes), latches),
        Err(_) => Err(Unfinished::NoMemory),
    }
}

/// Reads the stimulus once, and checks that each of its rows has a bit for each input of a netlist. Its rows come when it
/// is read again.
pub fn check_rows<S: Shelf>(
    alloc: Global,
    shelf: &mut S,
    name: &Name,
    ordered: &Ordered,
) -> Result<Stimulus, Unfinished>
    ensures judges { let width = ordered.now.flat.inputs in
        EndsStage File.Stimulus name.now
        (λ text stimulus. StandsIn stimulus text) (IsBadStimulus width)
        (S.seen shelf.old) (S.seen shelf.new) result }
    ensures starts { IfOk result (IsAtStart name.now ordered.now.flat.inputs) }
{
    match Stimulus::check(alloc, shelf, name, ordered.flat().inputs()) {
        Ok(stimulus) => Ok(stimulus),
        Err(StimFault::ReadFault) => Err(Unfinished::ReadFault(File::Stimulus)),
        Err(StimFault::NoMemory) => Err(Unfinished::NoMemory),
        Err(fault) => Err(Unfinished::Refused(Reason::Stimulus(fault))),
    }
}

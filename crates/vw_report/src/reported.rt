//! A plan that is reported.
ghost use Rattle.std.specs.Prelude.{◌≡◌};
ghost use Rattle.vw_plan.specs.Sound.{hops_of};
ghost use Rattle.vw_report.specs.Steps.Busy.{HasSlots};

use crate::busy::BusyPins;
use vw_chain::Timed;
use vw_outside::Name;

/// A sound plan whose nets are timed, with the pins that it uses and the names of its nets.
#[derive(Drop)]
pub struct Reported<'a> {
    pub timed: &'a Timed<'a>,
    /// The names of the nets, by their numbers.
    pub names: &'a [Name],
    /// The pins that the plan uses.
    pub busy: &'a BusyPins,
    ghost has_slots: { HasSlots (hops_of timed.now.wired.now.plan.now) busy.now.slots },
}

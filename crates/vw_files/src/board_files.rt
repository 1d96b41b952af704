ghost use Rattle.std.specs.Option.{option_copied};
ghost use Rattle.std.specs.Prelude.{◌≡◌};
ghost use Rattle.vw_courses.specs.MayPlan.{by_chips, by_file};
ghost use Rattle.vw_files.specs.Ready.{by_of};

use crate::probes::Probes;
use vw_outside::Name;

/// By which plan a command goes.
#[derive(Clone, Copy)]
pub enum PlanBy<'p> {
    /// A good one, which it makes.
    Made,
    /// The one of this file, which is checked.
    Given(&'p [u8]),
    /// One with the chips of this file, which it makes.
    Chips(&'p [u8]),
}

impl<'p> PlanBy<'p> {
    /// By the plan that is given, if one is.
    pub fn file(plan: Option<&'p [u8]>) -> Self
        ensures { by_of result ≡ by_file (option_copied plan.entry) }
    {
        match plan {
            Some(plan) => PlanBy::Given(plan),
            None => PlanBy::Made,
        }
    }

    /// With the chips that are given, if these are.
    pub fn chips(chips: Option<&'p [u8]>) -> Self
        ensures { by_of result ≡ by_chips (option_copied chips.entry) }
    {
        match chips {
            Some(chips) => PlanBy::Chips(chips),
            None => PlanBy::Made,
        }
    }
}

/// The files of a command on a board, by their names, and the nets that are watched.
#[derive(Clone, Copy)]
pub struct BoardFiles<'d, 'n, 'b, 'p> {
    pub design: &'d Name,
    pub probes: Probes<'n>,
    pub board: &'b Name,
    /// The plan to run by.
    pub plan: PlanBy<'p>,
}

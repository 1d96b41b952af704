//! A sound plan with the microcycles from which on nets are where.
ghost use Rattle.std.specs.Prelude.{◌≡◌};
ghost use Rattle.vw_plan.specs.Sound.{IsSound};
ghost use Rattle.vw_ready.specs.LeadTables.{AreArrivals, AreLeads, planned_in};

use vw_ready::Wired;

/// A sound plan with its tables, the arrival of each wire and the lead of each net at its own node.
#[derive(Drop)]
pub struct Timed<'a> {
    pub wired: &'a Wired<'a>,
    /// One past the arrival by each wire.
    pub arrivals: &'a [u64],
    /// The lead of each net at its own node.
    pub leads: &'a [u64],
    ghost sound: { IsSound (planned_in wired.now) },
    ghost arrivals_are: { AreArrivals (planned_in wired.now) arrivals.now },
    ghost leads_are: { AreLeads (planned_in wired.now) leads.now },
}

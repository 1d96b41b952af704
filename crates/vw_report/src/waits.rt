//! How long hops wait for pins.
ghost use Rattle.std.specs.Prelude.{◌≡◌, ◌≤◌, ◌^◌};
ghost use Rattle.vw_chain.specs.Timing.{planned_of};
ghost use Rattle.vw_report.specs.Waits.{is_full, pin_wait, width_of};

use crate::reported::Reported;
use vw_plan::Hop;

impl<'a> Reported<'a> {
    /// How many pins the link has over which a hop goes.
    fn width(&self, hop: &Hop) -> u32
        ensures { result ≡ width_of (planned_of self.now.timed.now).board.links hop.now }
    {
        match self.timed.wired.links.between(hop.from(), hop.to()) {
            Some(link) => link.width(),
            None => 0,
        }
    }

    /// Whether every pin of the link of a hop is in use in a microcycle.
    fn is_full(&self, hop: &Hop, at: u64) -> bool
        ensures { result ≡ is_full (planned_of self.now.timed.now) hop.now at }
    {
        for pin in 0..self.width(hop) {
            if !self.busy.is_used(hop.from(), hop.to(), pin, at) {
                return false;
            }
        }
        true
    }

    /// For how many microcycles a hop waits for pins, from that on in which it is ready.
    pub fn pin_wait(&self, ready: u64, hop: &Hop) -> u64
        requires { hop.now.at ≤ 2 ^ 62 }
        ensures { result ≡ pin_wait (planned_of self.now.timed.now) ready hop.now }
    {
        let most = hop.at().saturating_sub(ready);
        let mut waited = 0;
        while waited < most && self.is_full(hop, ready + waited) {
            waited += 1;
        }
        waited
    }
}

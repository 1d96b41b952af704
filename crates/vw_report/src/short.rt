//! Whether the wires of a plan are shortest.
ghost use Rattle.std.specs.Prelude.{◌≡◌};
ghost use Rattle.std.specs.Bool.{OnFalse, OnTrue};
ghost use Rattle.vw_plan.specs.Good.{AreShort};
ghost use Rattle.vw_chain.specs.Timing.{planned_of};

use crate::reported::Reported;
use vw_board::Distances;

impl<'a> Reported<'a> {
    /// Whether each wire has as many hops as its nodes are apart.
    pub fn is_short(&self, distances: &Distances) -> bool
        requires { distances.now ≡ (planned_of self.now.timed.now).board }
        ensures short { OnTrue result (AreShort (planned_of self.now.timed.now)) }
        ensures longer { OnFalse result (¬ (AreShort (planned_of self.now.timed.now))) }
    {
        for wire in self.timed.wired.plan.wires() {
            let far = distances.distance(self.timed.home(wire.net()), wire.to());
            if wire.hops().len() as u64 != u64::from(far) {
                return false;
            }
        }
        true
    }
}

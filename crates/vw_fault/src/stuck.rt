//! What readers find of nets in 64 lanes, in each of which another net may be stuck.
ghost use Rattle.std.specs.Prelude.{◌≡◌, ◌<◌, ◌≤◌, ◌==◌, ℕ, Bool, length, slice_get, Some, IfOk, if◌then◌else◌};
ghost use Rattle.std.specs.List.{All};
ghost use Rattle.vw_net.specs.TruthTable.{bit_of};
ghost use Rattle.vw_fault.specs.declared.open.Open.{Open};
ghost use Rattle.vw_fault.specs.Steps.Lanes.{find_in};
ghost use Rattle.vw_fault.specs.Stuck.{find_stuck};

use crate::open::Open;
use crate::words::{Words, spread};
use std::alloc::{AllocError, Global};

/// For each net the lanes in which readers find its own bit, and those in which they find 1 whatever its bit is.
pub struct Stuck {
    pub kept: Words,
    pub forced: Words,
}

impl Drop for Stuck {
    fn drop(self) {
        let Stuck { kept: _, forced: _ } = self;
    }
}

impl Stuck {
    /// Nothing is stuck among so many nets.
    pub fn none(alloc: Global, nets: usize) -> Result<Self, AllocError>
        ensures kept { IfOk result (λ stuck. length stuck.kept ≡ nets) }
        ensures forced { IfOk result (λ stuck. length stuck.forced ≡ nets) }
        ensures plain { IfOk result (λ stuck. (lane : ℕ) → lane < 64 → (net : ℕ) (bit : Bool)
            → find_in stuck lane net bit ≡ bit) }
    {
        let kept = Words::filled(alloc, u64::MAX, nets)?;
        let forced = Words::filled(alloc, 0, nets)?;
        Ok(Stuck { kept, forced })
    }

    /// Each of these faults in the lane of its place, from lane 0 on, and nothing in further lanes. It takes 16 bytes a net.
    pub fn of(alloc: Global, nets: usize, faults: &[Open]) -> Result<Self, AllocError>
        requires few { length faults.now ≤ 64 }
        requires within { All (λ fault. fault.net < nets) faults.now }
        ensures kept { IfOk result (λ stuck. length stuck.kept ≡ nets) }
        ensures forced { IfOk result (λ stuck. length stuck.forced ≡ nets) }
        ensures found { IfOk result (λ stuck. (lane : ℕ) (fault : Open)
            → slice_get faults.now lane ≡ Some fault → (net : ℕ) (bit : Bool)
            → find_in stuck lane net bit ≡ find_stuck fault net bit) }
    {
        let mut stuck = Stuck::none(alloc, nets)?;
        for (lane, fault) in faults.iter().enumerate() {
            stuck.put(lane as u32, *fault);
        }
        Ok(stuck)
    }

    /// Puts a fault into a lane.
    fn put(&mut self, lane: u32, fault: Open)
        requires lane { lane < 64 }
        requires kept { fault.net < length self.old.kept }
        requires forced { fault.net < length self.old.forced }
        ensures kept { length self.new.kept ≡ length self.old.kept }
        ensures forced { length self.new.forced ≡ length self.old.forced }
        ensures found { (other : ℕ) → other < 64 → (net : ℕ) (bit : Bool)
            → find_in self.new other net bit
            ≡ (if other == lane then find_stuck fault net (find_in self.old other net bit)
            else find_in self.old other net bit) }
    {
        let net = fault.net as usize;
        let own = 1u64 << lane;
        let others = own ^ u64::MAX;
        self.kept.set(net, self.kept.get(net) & others);
        self.forced.set(net, self.forced.get(net) & others | own & spread(fault.bit));
    }

    /// What readers find of a net that has these bits.
    pub fn found(&self, net: usize, word: u64) -> u64
        requires kept { net < length self.now.kept }
        requires forced { net < length self.now.forced }
        ensures { (lane : ℕ)
            → bit_of result lane ≡ find_in self.now lane net (bit_of word lane) }
    {
        word & self.kept.get(net) | self.forced.get(net)
    }
}

ghost use Rattle.std.specs.Prelude.{◌≡◌, ◌≤◌, ◌+◌, suc, IfOk};
ghost use Rattle.vw_net.specs.History.{outputs_of, state_after, states_of};
ghost use Rattle.vw_answer.specs.Answers.{HasTold, IsFinished};

use crate::rows::{put_present, put_recorded};
use std::alloc::{AllocError, Global};
use vw_net::{Bits, Rows};
use vw_node::Node;
use vw_prog::{Answer, Job};

/// Room for the latches of a job: those of each clock, and those after the last. Its chips, which are done, put theirs into it
/// one after the other.
pub struct Room {
    /// For each clock a bit for each latch, in the order of the cells.
    pub latches: Rows,
    /// A bit for each latch, after the last clock.
    pub last: Bits,
}

impl Drop for Room {
    fn drop(self) {
        let Room {
            latches: _,
            last: _,
        } = self;
    }
}

impl Room {
    /// The room of a job. It takes a bit for each latch in each clock, and one after the last.
    pub fn make(alloc: Global, job: &Job) -> Result<Self, AllocError>
        // No chip has told its latches yet: chips are numbered from 1 on.
        ensures { IfOk result (HasTold job.now 1) }
    {
        let share = job.share(0);
        let latches = Rows::blank(alloc, share.clocks as usize, share.start.len())?;
        let last = Bits::of(vec![in alloc; false; share.start.len()]?);
        Ok(Room { latches, last })
    }

    /// Puts the latches of the next chip into it. It takes no memory.
    pub fn put_chip(&mut self, job: &Job, chip: &Node<'_>)
        requires told { HasTold job.now chip.now.share.node self.old }
        requires number { 1 ≤ chip.now.share.node }
        requires finished { IsFinished job.now chip.now }
        ensures { HasTold job.now (chip.now.share.node + 1) self.new }
    {
        put_recorded(chip, &mut self.latches);
        put_present(chip, &mut self.last);
    }

    /// The answer of the job, once all chips have told their latches, from what the host has recorded. It takes no memory.
    pub fn answer(self, job: &Job, host: Node<'_>) -> Answer
        requires told { HasTold job.now (suc job.now.checked.board.chips) self }
        requires number { host.share.node ≡ 0 }
        requires finished { IsFinished job.now host }
        ensures outputs { result.outputs ≡ outputs_of job.now.checked.ordered.flat
            job.now.start job.now.rows }
        ensures latches { result.latches ≡ states_of job.now.checked.ordered.flat
            job.now.start job.now.rows }
        ensures last { result.last ≡ state_after job.now.checked.ordered.flat
            job.now.start job.now.rows }
    {
        let _ = job;
        let Room { latches, last } = self;
        Answer::make(host.into_rows(), latches, last)
    }
}

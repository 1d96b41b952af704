ghost use Rattle.std.specs.Prelude.{◌≡◌, ◌≤◌, ◌+◌, ◌++◌, length, true, option_map, IfOk};
ghost use Rattle.std.specs.List.{range_with_len};
ghost use Rattle.std.specs.Option.{is_some};
ghost use Rattle.vw_net.specs.History.{outputs_of, state_after, states_of};
ghost use Rattle.vw_prog.specs.Actions.{ArePrograms};
ghost use Rattle.vw_prog.specs.Scripts.{planned_of, script};
ghost use Rattle.vw_crew.specs.Seen.{AreDealt};

use crate::group::Group;
use crate::groups::{first_groups, into_host, node};
use crate::laying::{lay_all, lift_all};
use crate::pace::Pace;
use crate::rounds::finish;
use std::alloc::{AllocError, Global};
use std::marker::{Model, Sync};
use std::snapshot::Snapshot;
use std::sync::Wait;
use std::thread::Threads;
use vw_answer::Room;
use vw_outside::BurstGate;
use vw_prog::{Answer, Fabric, Job, Programs};

/// The nodes of a board in a job, in groups that work at the same time, with their words on links that a fabric has laid. It
/// borrows the job and the programs. Contracts see the job, which number and which nodes each group has, whether its receiving ends
/// keep their words, and whether its nodes were brought to the end.
#[derive(Drop)]
pub struct Crew<'a, F: Fabric> {
    job: &'a Job,
    /// The node with a number is in the group with the rest of the number by the count of groups.
    groups: Vec<Group<'a, F::Tx, F::Rx>>,
    /// Room for the latch values of its answer.
    room: Room,
    done: bool,
    /// The fabric when it laid the links, which clauses see and the code doesn't.
    laid_by: Snapshot<F>,
}

impl<'a, F: Fabric> Model for Crew<'a, F> {
    ghost use Rattle.std.specs.Prelude.{◌≡◌, true};
    ghost use Rattle.std.specs.Option.{is_some};
    ghost use Rattle.vw_answer.specs.Answers.{HasTold};
    ghost use Rattle.vw_crew.specs.Groups.{group_numbers, node_numbers};
    ghost use Rattle.vw_crew.specs.Laying.{AreThrough, IsCrew};
    ghost use Rattle.vw_crew.specs.Seen.{SeenCrew};

    ghost Value = { SeenCrew };

    ghost view = { λ crew. record {
      job = crew.job.now;
      numbers = group_numbers crew.groups.items;
      groups = node_numbers crew.groups.items;
      keeps = is_some (F.carried crew.laid_by.value);
      done = crew.done;
    } };

    ghost invariant = { λ crew. IsCrew crew.job.now (is_some (F.carried crew.laid_by.value))
        crew.groups.items
        × HasTold crew.job.now 1 crew.room
        × (crew.done ≡ true → AreThrough crew.job.now crew.groups.items) };
}

impl<'a, F: Fabric> Crew<'a, F> {
    /// The crew of a job at the start, of which these are the programs, in as many groups as there are workers, or nodes if they
    /// are fewer, with the numbers 0, 1 and so on in their order. It lays each link once, and takes all memory of the job: for the
    /// nodes and all that they will record, for their ends, and for the answer. On a refusal all that was laid is lifted.
    pub fn make(
        alloc: Global,
        programs: &'a Programs,
        job: &'a Job,
        fabric: &mut F,
        workers: u32,
    ) -> Result<Self, AllocError>
        requires programs { ArePrograms (planned_of job.now) programs.now }
        requires some { 1 ≤ workers }
        requires few { workers ≤ 64 }
        ensures carried { F.carried fabric.new ≡ F.carried fabric.old }
        ensures job { IfOk result (λ crew. crew.job ≡ job.now) }
        ensures groups { IfOk result (λ crew. AreDealt workers (job.now.checked.board.chips + 1)
            crew.groups) }
        ensures numbers { IfOk result (λ crew. crew.numbers
            ≡ range_with_len 0 (length crew.groups)) }
        ensures keeps { IfOk result (λ crew. crew.keeps ≡ is_some (F.carried fabric.old)) }
    {
        let room = Room::make(alloc, job)?;
        let count = workers.min(job.checked().board().chips() + 1);
        let mut groups = first_groups(alloc, programs, job, count)?;
        let laid_by = Snapshot::of(&*fabric);
        lay_all(alloc, fabric, job, &mut groups)?;
        Ok(Crew {
            job,
            groups,
            room,
            done: false,
            laid_by,
        })
    }

    /// Brings all nodes to the end, by rounds in which all groups work at the same time, each in a thread of its own where one
    /// can be started. Where the pace of the run says that rounds aren't worth their threads, the calling thread makes the
    /// actions of all nodes between two rounds. Each group tells the gate its number before each of its bursts, which no clause
    /// says, since clauses see nothing of a gate. It may wait for ever. It takes no memory.
    pub fn finish<R: Threads + Wait + Sync, G: BurstGate>(
        &mut self,
        rt: &R,
        gate: &G,
        pace: &mut Pace,
    )
        ensures job { self.new.job ≡ self.old.job }
        ensures groups { self.new.groups ≡ self.old.groups }
        ensures numbers { self.new.numbers ≡ self.old.numbers }
        ensures keeps { self.new.keeps ≡ self.old.keeps }
        ensures done { self.new.done ≡ true }
    {
        let clocks = self.job.share(0).clocks;
        finish(rt, gate, pace, &mut self.groups, clocks);
        self.done = true;
    }

    /// Lifts all links. Gives what the job came to: the outputs and the latch values of each clock, and the latch values after
    /// the last. Where the fabric tells the words that its links have carried, those of each link grow by the link's script. It
    /// takes no memory.
    pub fn close(self, fabric: &mut F) -> Answer
        requires done { self.done ≡ true }
        requires keeps { is_some (F.carried fabric.old) ≡ true → self.keeps ≡ true }
        ensures carried { F.carried fabric.new ≡ option_map (λ words. λ link. words link
            ++ script self.entry.job link) (F.carried fabric.old) }
        ensures outputs { result.outputs ≡ outputs_of self.entry.job.checked.ordered.flat
            self.entry.job.start self.entry.job.rows }
        ensures latches { result.latches ≡ states_of self.entry.job.checked.ordered.flat
            self.entry.job.start self.entry.job.rows }
        ensures last { result.last ≡ state_after self.entry.job.checked.ordered.flat
            self.entry.job.start self.entry.job.rows }
    {
        let Crew {
            job,
            mut groups,
            mut room,
            ..
        } = self;
        lift_all(
            fabric,
            job,
            &mut groups,
            job.checked().board().links().len(),
        );
        for chip in 1..job.checked().board().chips() + 1 {
            room.put_chip(job, node(&groups, chip));
        }
        room.answer(job, into_host(groups))
    }
}

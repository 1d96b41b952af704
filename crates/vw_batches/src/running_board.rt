//! A planned design that is ready to run on its board.
ghost use Rattle.std.specs.Prelude.{◌≡◌, ◌+◌, ◌<◌, ◌^◌, length, IfOk};
ghost use Rattle.std.specs.List.{All};
ghost use Rattle.vw_net.specs.Cells.{latch_count, start_values};
ghost use Rattle.vw_net.specs.History.{outputs_of, state_after, states_of};
ghost use Rattle.vw_prog.specs.Actions.{ArePrograms};
ghost use Rattle.vw_prog.specs.Scripts.{planned_of};

use std::alloc::{AllocError, Global};
use std::marker::Model;
use vw_net::{Bits, Flat, Rows};
use vw_plan::Checked;
use vw_prog::{Answer, Job, Programs};
use vw_trace::{Batch, Engine};
use vw_world::World;

/// A board with the programs of its nodes, and the job that it has at hand: that of the next clocks, without rows until they
/// are worked out. Contracts see the job.
pub struct RunningBoard {
    programs: Programs,
    job: Job,
}

impl Drop for RunningBoard {
    fn drop(self) {
        let RunningBoard {
            programs: _,
            job: _,
        } = self;
    }
}

impl Model for RunningBoard {
    ghost use Rattle.vw_prog.specs.Actions.{ArePrograms};
    ghost use Rattle.vw_prog.specs.Scripts.{planned_of};
    ghost use Rattle.vw_batches.specs.Runs.{SeenRun};

    ghost Value = { SeenRun };

    ghost view = { λ board. record { job = board.job } };

    ghost invariant = { λ board. ArePrograms (planned_of board.job) board.programs };
}

impl RunningBoard {
    /// The board of a planned design before the clock with this number, counted from 0, where the latches have these values. It
    /// takes memory for the programs of all nodes.
    pub fn make(
        alloc: Global,
        checked: Checked,
        clock: u64,
        state: Bits,
    ) -> Result<Self, AllocError>
        requires clock { clock < 2 ^ 32 }
        requires latches { length state ≡ latch_count checked.ordered.flat.cells }
        ensures checked { IfOk result (λ board. board.job.checked ≡ checked) }
        ensures clock { IfOk result (λ board. board.job.first ≡ clock) }
        ensures state { IfOk result (λ board. board.job.start ≡ state) }
    {
        let programs = Programs::build(alloc, &checked)?;
        let rows = Rows::new(alloc);
        Ok(RunningBoard {
            programs,
            job: Job::make(checked, clock, state, rows),
        })
    }

    /// The board of a planned design before its first clock, where free latches start at `unknown`. It takes memory as `make`
    /// does, and for a bit for each latch.
    pub fn start(alloc: Global, checked: Checked, unknown: bool) -> Result<Self, AllocError>
        ensures checked { IfOk result (λ board. board.job.checked ≡ checked) }
        ensures clock { IfOk result (λ board. board.job.first ≡ 0) }
        ensures state { IfOk result (λ board. board.job.start
            ≡ start_values unknown checked.ordered.flat.cells) }
    {
        let state = checked.ordered().flat().start(alloc, unknown)?;
        Self::make(alloc, checked, 0, state)
    }

    /// Gives its job these rows, those of the next clocks. It takes no memory.
    pub fn take_rows(&mut self, rows: Rows)
        requires columns { All (λ row. length row ≡ self.old.job.checked.ordered.flat.inputs) rows }
        requires few { self.old.job.first + length rows < 2 ^ 32 }
        ensures checked { self.new.job.checked ≡ self.old.job.checked }
        ensures first { self.new.job.first ≡ self.old.job.first }
        ensures start { self.new.job.start ≡ self.old.job.start }
        ensures rows { self.new.job.rows ≡ rows }
    {
        self.job.rows = rows;
    }

    /// Has the next job at hand, now that its job has come to this, and hands on what that was. It takes no memory.
    pub fn go_past(&mut self, alloc: Global, answer: Answer) -> Batch
        requires { let job = self.old.job in
            answer.last ≡ state_after job.checked.ordered.flat job.start job.rows }
        ensures checked { self.new.job.checked ≡ self.old.job.checked }
        ensures first { self.new.job.first ≡ self.old.job.first + length self.old.job.rows }
        ensures start { self.new.job.start ≡ answer.last }
        ensures outputs { result.outputs ≡ answer.outputs }
        ensures states { result.states ≡ answer.latches }
    {
        let Answer {
            outputs,
            latches,
            last,
        } = answer;
        self.job.renew(self.job.next(), last, Rows::new(alloc));
        Batch {
            outputs,
            states: latches,
        }
    }

    /// The programs of its nodes.
    pub fn programs(&self) -> &Programs
        ensures { ArePrograms (planned_of self.now.job) result.now }
    {
        &self.programs
    }

    /// The job that it has at hand.
    pub fn job(&self) -> &Job
        ensures { result.now ≡ self.now.job }
    {
        &self.job
    }

    /// Works out its job in one worker. It takes the memory of all of it before the first step.
    fn work_alone(&self, alloc: Global) -> Result<Answer, AllocError>
        ensures outputs { let job = self.now.job in IfOk result (λ answer. answer.outputs
            ≡ outputs_of job.checked.ordered.flat job.start job.rows) }
        ensures latches { let job = self.now.job in IfOk result (λ answer. answer.latches
            ≡ states_of job.checked.ordered.flat job.start job.rows) }
        ensures last { let job = self.now.job in IfOk result (λ answer. answer.last
            ≡ state_after job.checked.ordered.flat job.start job.rows) }
    {
        let mut world = World::make(alloc, &self.programs, &self.job)?;
        world.finish();
        Ok(world.into_answer())
    }
}

/// By itself a board runs in one worker: each batch is a job of its world.
impl Engine for RunningBoard {
    ghost use Rattle.vw_batches.specs.Runs.{engine_of};

    ghost seen = { λ board. engine_of board.job };

    fn flat(&self) -> &Flat {
        self.job.checked().ordered().flat()
    }

    fn clock(&self) -> u64 {
        self.job.first
    }

    fn state(&self) -> &Bits {
        &self.job.start
    }

    fn work_out(&mut self, alloc: Global, rows: Rows) -> Result<Batch, AllocError> {
        self.take_rows(rows);
        let answer = self.work_alone(alloc)?;
        Ok(self.go_past(alloc, answer))
    }
}

//! What several workers run a board by.
ghost use Rattle.std.specs.Prelude.{◌≡◌, ◌<◌, ◌+◌, ◌^◌, length, IfOk, OnErr, OnOk};
ghost use Rattle.std.specs.List.{All};
ghost use Rattle.vw_net.specs.History.{outputs_of, state_after, states_of};
ghost use Rattle.vw_prog.specs.Scripts.{planned_of};
ghost use Rattle.vw_trace.specs.Engines.{HasWorked};
ghost use Rattle.vw_batches.specs.Runs.{engine_of};
ghost use Rattle.vw_batches.specs.Traffic.{after_rows};

use crate::running_board::RunningBoard;
use std::alloc::{AllocError, Global};
use std::marker::Sync;
use std::sync::Wait;
use std::thread::Threads;
use vw_crew::{Crew, Pace};
use vw_net::Rows;
use vw_outside::BurstGate;
use vw_prog::{Answer, Fabric};
use vw_trace::Batch;

/// What workers run a board by: the runtime with its threads, the fabric with the links between chips, the gate that each
/// group of nodes passes before a burst, how many workers are asked for, and how the rounds of the runs have paid so far.
/// Fewer than two workers are one, who needs none of the others, and more than 64 are 64.
#[derive(Drop)]
pub struct Floor<'r, 'f, 'g, R, F, G> {
    pub rt: &'r R,
    pub fabric: &'f mut F,
    pub gate: &'g G,
    pub workers: u64,
    pub pace: Pace,
}

impl<'r, 'f, 'g, R, F, G> Floor<'r, 'f, 'g, R, F, G> {
    /// The floor of runs by so many workers, of which none has begun.
    pub fn new(rt: &'r R, fabric: &'f mut F, gate: &'g G, workers: u64) -> Self
        ensures fabric { result.fabric.ghost_name ≡ fabric.entry.ghost_name }
        ensures same { result.fabric.now ≡ fabric.old }
        ensures workers { result.workers ≡ workers }
    {
        Floor {
            rt,
            fabric,
            gate,
            workers,
            pace: Pace::new(),
        }
    }
}

impl<R: Threads + Wait + Sync, F: Fabric, G: BurstGate> Floor<'_, '_, '_, R, F, G> {
    /// Works out a board's job by a crew, whose links are laid in the fabric and lifted after it. It takes the memory of all of
    /// it before the first step.
    fn work(&mut self, alloc: Global, board: &RunningBoard) -> Result<Answer, AllocError>
        requires { 1 < self.old.workers }
        ensures workers { self.new.workers ≡ self.old.workers }
        ensures fabric { self.new.fabric.ghost_name ≡ self.old.fabric.ghost_name }
        ensures outputs { let job = board.now.job in IfOk result (λ answer. answer.outputs
            ≡ outputs_of job.checked.ordered.flat job.start job.rows) }
        ensures latches { let job = board.now.job in IfOk result (λ answer. answer.latches
            ≡ states_of job.checked.ordered.flat job.start job.rows) }
        ensures last { let job = board.now.job in IfOk result (λ answer. answer.last
            ≡ state_after job.checked.ordered.flat job.start job.rows) }
        ensures carried { let job = board.now.job in OnOk result (F.carried self.new.fabric.now
            ≡ after_rows self.old.workers (planned_of job) job.first job.start job.rows
            (F.carried self.old.fabric.now)) }
        ensures uncarried { OnErr result (F.carried self.new.fabric.now
            ≡ F.carried self.old.fabric.now) }
    {
        let workers = self.workers.min(64).max(1) as u32;
        let mut crew = Crew::make(alloc, board.programs(), board.job(), self.fabric, workers)?;
        crew.finish(self.rt, self.gate, &mut self.pace);
        Ok(crew.close(self.fabric))
    }

    /// Works out a board's next clocks, those of some rows, by several workers.
    ///
    /// It takes memory for these clocks, all of it before the first. Where there is none, no clock was worked out, and
    /// nothing is known of where the board stands.
    pub fn work_out(
        &mut self,
        alloc: Global,
        board: &mut RunningBoard,
        rows: Rows,
    ) -> Result<Batch, AllocError>
        requires several { 1 < self.old.workers }
        requires columns { All (λ row. length row ≡ board.old.job.checked.ordered.flat.inputs) rows }
        requires few { board.old.job.first + length rows < 2 ^ 32 }
        ensures checked { board.new.job.checked ≡ board.old.job.checked }
        ensures workers { self.new.workers ≡ self.old.workers }
        ensures fabric { self.new.fabric.ghost_name ≡ self.old.fabric.ghost_name }
        ensures worked { IfOk result (HasWorked (engine_of board.old.job) (engine_of board.new.job) rows) }
        ensures carried { OnOk result (F.carried self.new.fabric.now
            ≡ after_rows self.old.workers (planned_of board.old.job) board.old.job.first
            board.old.job.start rows (F.carried self.old.fabric.now)) }
        ensures uncarried { OnErr result (F.carried self.new.fabric.now
            ≡ F.carried self.old.fabric.now) }
    {
        board.take_rows(rows);
        let answer = self.work(alloc, board)?;
        Ok(board.go_past(alloc, answer))
    }
}

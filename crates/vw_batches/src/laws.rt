//! Laws of the definitions, as contracts of functions that do nothing.
ghost use Rattle.std.specs.Prelude.{◌≡◌, ℕ, Bool, List, length, take};
ghost use Rattle.vw_plan.specs.PlannedBoard.{PlannedBoard};
ghost use Rattle.vw_prog.specs.declared.job.Job.{Job};
ghost use Rattle.vw_prog.specs.Scripts.{planned_of, script};
ghost use Rattle.vw_batches.specs.Traffic.{traffic, words_from};

/// The script of a job over a link is the words of its rows, from its start bits on.
pub fn jobs_carry_their_rows()
    ensures { (job : Job) (link : ℕ)
        → script job link ≡ words_from (planned_of job) link job.first job.start job.rows }
{}

/// Over the first of some rows each link carries the first of its words.
pub fn fewer_rows_carry_fewer_words()
    ensures { (planned : PlannedBoard) (unknown : Bool) (rows : List (List Bool)) (count link : ℕ)
        → traffic planned unknown (take count rows) link
        ≡ take (length (traffic planned unknown (take count rows) link))
        (traffic planned unknown rows link) }
{}

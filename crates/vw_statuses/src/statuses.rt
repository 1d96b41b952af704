//! Laws of the commands, as contracts of functions that do nothing.
ghost use Rattle.std.specs.Prelude.{◌≡◌, ◌≤◌, ℕ, Bool, false, List, Option, [], length};
ghost use Rattle.vw_words.specs.FirstWrong.{IsFirstWrong};
ghost use Rattle.vw_words.specs.Matched.{first_wrong};
ghost use Rattle.vw_design.specs.Paths.{Word};
ghost use Rattle.vw_course.specs.Endings.{IsCallOf};
ghost use Rattle.vw_course.specs.Statuses.{Holds, Statuses};
ghost use Rattle.vw_courses.specs.Words.{Spelled, command_forms, help, spelled_by, uses_links, version};
ghost use Rattle.vw_courses.specs.Commands.{check_course, course_of, demo_course, emit_course, ends_by, grade_course, nets_course, over_counted, plan_course, replay_course, replayed_trace_of_until, replayed_wave_of_until, report_course, resume_course, run_course, save_course, saved_of, sim_course, texts_kept, trace_of_until, usage_course, watched_words, wave_course, wave_of_until};
ghost use Rattle.vw_courses.specs.MayPlan.{PlanBy};
ghost use Rattle.vw_courses.specs.Messages.{Call};
ghost use Rattle.vw_statuses.specs.Headline.{Headline, WritesTrace};
ghost use Rattle.vw_statuses.specs.Promises.{Promise};
ghost use Rattle.vw_statuses.specs.WaveLaw.{ReplayedWavesReplay, WavesReplay};
ghost use Rattle.vw_statuses.specs.UsageStatuses.{UsageStatuses};
ghost use Rattle.vw_statuses.specs.SimStatuses.{GradeStatuses, SimStatuses};
ghost use Rattle.vw_statuses.specs.NetsStatuses.{NetsStatuses};
ghost use Rattle.vw_statuses.specs.EmittedBoards.{BoardsShow};
ghost use Rattle.vw_statuses.specs.EmitStatuses.{EmitStatuses};
ghost use Rattle.vw_statuses.specs.WrittenStatuses.{CheckStatuses, PlanStatuses};
ghost use Rattle.vw_statuses.specs.ReplayStatuses.{ReplayStatuses};
ghost use Rattle.vw_statuses.specs.ReportStatuses.{ReportStatuses};
ghost use Rattle.vw_statuses.specs.RunStatuses.{RunStatuses};
ghost use Rattle.vw_statuses.specs.Pieces.{PiecesJoin, ReplaysJoin, WatchedPiecesJoin};
ghost use Rattle.vw_statuses.specs.ResumeStatuses.{ResumeStatuses, trace_from_state_until};
ghost use Rattle.vw_statuses.specs.ConstantStatuses.{ConstantStatuses};
ghost use Rattle.vw_statuses.specs.Triggers.{TriggersEndRuns};
ghost use Rattle.vw_courses.specs.Help.{help_text, version_text};
ghost use Rattle.vw_statuses.specs.DemoStatuses.{DemoStatuses};

use vw_emit::emitted_texts_show_their_designs;
use vw_resume::{traces_join, waves_of_replays_replay};
use vw_wave::waves_of_runs_replay;
use vw_words::wrong_words_follow_the_longest_front;

/// The headline. Whatever the board, the plan and the number of workers, and in whatever order the workers have run: where
/// the texts of design and stimulus are held and the status of `run` is 0, out has exactly the trace of the unpartitioned
/// design, with the nets that the probes find, over the rows of the stimulus, or over those up to the first clock in which the
/// trigger is 1.
pub fn headline()
    ensures followed { (probes : List Word) (until : Option Word)
        (design board stimulus : List ℕ) (by : PlanBy) (workers : ℕ) (unknown : Bool)
        (call : Call) → IsCallOf (run_course probes until design board by stimulus workers unknown) call
        → (d s : List ℕ) → Holds call design d → Holds call stimulus s
        → call.status ≡ 0 → WritesTrace probes until unknown d s call.before.out call.after.out }
    ensures spelled { (words : List (List ℕ)) (call : Call) → IsCallOf (course_of (spelled_by words)) call
        → Headline words call.before.shelf.told call.before.out call.after.out call.status }
{}

/// What each command has written where it ends with status 0, by its words and its files alone.
pub fn promises()
    ensures { (spelled : Spelled) (call : Call) → IsCallOf (course_of spelled) call → call.status ≡ 0
        → Promise spelled call.before.shelf.told call.before.out call.after.out }
{
    emitted_boards_show_designs();
}

/// What each status of a call means, when it comes, what it leaves, and which message it has, whatever the words spell.
pub fn call_statuses()
    ensures { (spelled : Spelled) (call : Call) → IsCallOf (course_of spelled) call
        → Statuses (course_of spelled) call }
{}

/// What each status of `sim` says of its files.
pub fn sim_statuses()
    ensures { (probes : List Word) (until : Option Word) (design stimulus : List ℕ) (unknown : Bool)
        (call : Call) → IsCallOf (sim_course probes until design stimulus unknown) call
        → SimStatuses (watched_words until probes) (trace_of_until (ends_by until) unknown) design stimulus call }
{}

/// What each status of `wave` says of its files: after status 0, out has the wave of the design.
pub fn wave_statuses()
    ensures { (probes : List Word) (until : Option Word) (design stimulus : List ℕ) (unknown : Bool)
        (call : Call) → IsCallOf (wave_course probes until design stimulus unknown) call
        → SimStatuses (watched_words until probes) (wave_of_until (ends_by until) probes unknown)
        design stimulus call }
{}

/// What each status of a `sim` from a state on says of its files: after status 0, out has the trace of the design from the
/// state on, over the rows of the stimulus from the state's clock on.
pub fn replay_statuses()
    ensures { (probes : List Word) (until : Option Word) (design state stimulus : List ℕ)
        (call : Call) → IsCallOf (replay_course (watched_words until probes) design state stimulus
        (replayed_trace_of_until (ends_by until))) call
        → ReplayStatuses (watched_words until probes) (replayed_trace_of_until (ends_by until))
        design state stimulus call }
{}

/// What each status of a `wave` from a state on says of its files: after status 0, out has the wave of the design from the
/// state on, whose first clock is the state's.
pub fn replay_wave_statuses()
    ensures { (probes : List Word) (until : Option Word) (design state stimulus : List ℕ)
        (call : Call) → IsCallOf (replay_course (watched_words until probes) design state stimulus
        (replayed_wave_of_until (ends_by until) probes)) call
        → ReplayStatuses (watched_words until probes) (replayed_wave_of_until (ends_by until) probes)
        design state stimulus call }
{}

/// What a viewer finds in the wave of a design, with 65 probes at most: at each clock each output, probe and latch has its
/// bit, the last time is the number of clocks, and each value behind the first block is a change.
pub fn waves_show_designs()
    ensures { WavesReplay }
{
    waves_of_runs_replay();
}

/// What a viewer finds in the wave of a design from the state on that `save` writes of the first rows, with 65 probes at most:
/// its first time is the state's clock, and at each clock from there on each output, probe and latch has the bit that it has in the
/// whole run.
pub fn replayed_waves_show_designs()
    ensures { ReplayedWavesReplay }
{
    waves_of_replays_replay();
}

/// What each status of `grade` says of its files, whatever the number of workers: after status 0, out has the grading of the
/// netlist of the design, or of a share of its faults.
pub fn grade_statuses()
    ensures { (share : Option (ℕ × ℕ)) (design stimulus : List ℕ) (unknown : Bool) (call : Call)
        → IsCallOf (grade_course share design stimulus unknown) call
        → GradeStatuses share unknown design stimulus call }
{}

/// What each status of `nets` says of its design: after status 0, out has the text of its netlist.
pub fn nets_statuses()
    ensures { (probes : List Word) (design : List ℕ) (call : Call)
        → IsCallOf (nets_course probes design) call → NetsStatuses probes design call }
{}

/// What each status of `check` says of its files, with 65 probes at most.
pub fn check_statuses()
    ensures { (probes : List Word) → length probes ≤ 65 → (design board plan : List ℕ) (call : Call)
        → IsCallOf (check_course probes design board plan) call
        → CheckStatuses probes design board plan call }
{}

/// What each status of `plan` says of its files, with 65 probes at most: after status 0, out has the text of a good plan, or, for
/// given chips, that of a sound plan with exactly these.
pub fn plan_statuses()
    ensures { (probes : List Word) → length probes ≤ 65 → (design board : List ℕ) (by : PlanBy) (call : Call)
        → IsCallOf (plan_course probes design board by) call
        → PlanStatuses probes design board by call }
{}

/// What each status of `report` says of its files, with 65 probes at most, whichever way its plan comes (`PlanBy`): after status 0,
/// out has the report of the plan, with the names of the nets in the design of the text.
pub fn report_statuses()
    ensures { (probes : List Word) → length probes ≤ 65 → (design board : List ℕ) (by : PlanBy) (call : Call)
        → IsCallOf (report_course probes design board by) call
        → ReportStatuses probes by design board call }
{}

/// What each status of `run` says of its files, with 65 watched nets at most, whichever way its plan comes (`PlanBy`): after
/// status 0 the plan is sound, or good, and out has the trace of the unpartitioned design; with several workers each link has
/// carried exactly its words of that plan.
pub fn run_statuses()
    ensures { (probes : List Word) (until : Option Word) → length (watched_words until probes) ≤ 65
        → (design board stimulus : List ℕ) (by : PlanBy) (workers : ℕ) (unknown : Bool)
        (call : Call) → IsCallOf (run_course probes until design board by stimulus workers unknown) call
        → RunStatuses (watched_words until probes) (trace_of_until (ends_by until) unknown)
        design board by stimulus (ends_by until) workers unknown call }
{}

/// What each status of `save` says of its files, whichever way its plan comes (`PlanBy`): after status 0, out has the
/// state of the unpartitioned design after all rows, or after those that count where there is a trigger, and with a number of
/// clocks (`every`) the states behind each so many, too; with several workers each link has carried exactly its words.
pub fn save_statuses()
    ensures { (until : Option Word) (design board stimulus : List ℕ) (by : PlanBy) (workers : ℕ)
        (unknown : Bool) (every : Option ℕ) (call : Call)
        → IsCallOf (save_course until design board by stimulus workers unknown every) call
        → RunStatuses (watched_words until [])
        (over_counted (ends_by until) unknown (texts_kept every (saved_of unknown)))
        design board by stimulus (ends_by until) workers unknown call }
{}

/// What each status of `resume` says of its files, with 65 watched nets at most, whichever way its plan comes (`PlanBy`): after
/// status 0, out has the trace of the unpartitioned design from the state on; with several workers each link has carried exactly its words.
pub fn resume_statuses()
    ensures { (probes : List Word) (until : Option Word) → length (watched_words until probes) ≤ 65
        → (design board state stimulus : List ℕ) (by : PlanBy) (workers : ℕ) (call : Call)
        → IsCallOf (resume_course probes until design board by state stimulus workers) call
        → ResumeStatuses (watched_words until probes) (trace_from_state_until (ends_by until) probes)
        design board by state stimulus (ends_by until) workers call }
{}

/// A run that is cut in pieces: what `run` writes of the first rows, joined line by line with what `resume` writes of the others
/// from the state that `save` writes of the first, is what `run` writes of all. No board, plan or number of workers counts. So it
/// is with the same probes on both sides, too.
pub fn pieces_join()
    ensures plain { PiecesJoin }
    ensures watched { WatchedPiecesJoin }
{
    traces_join();
}

/// What `sim` writes of the first rows, joined line by line with what it writes of all rows from the state on that `save` writes
/// of the first, is what it writes of all, with the same probes. So a replay is the tail of the whole trace.
pub fn replays_of_designs_join()
    ensures { ReplaysJoin }
{}

/// What a trigger does (`until=NET`): each text of a run that it ends, from the start values or from a state on, is that of the same
/// run without it over the rows up to the first clock in which the net is 1, and with that one; over all rows where it never is 1.
pub fn triggers_end_runs()
    ensures { TriggersEndRuns }
{}

/// What `emit` writes, by a plan that is given or by one that it makes, spells a design that runs. Simulated by any
/// tool, with each row held for one clock more than the period, it shows in the last of these clocks the outputs of the
/// design and then the values of its latches before the step.
pub fn emitted_boards_show_designs()
    ensures { BoardsShow }
{
    emitted_texts_show_their_designs();
}

/// What each status of `emit` says of its files, whichever way its plan comes (`PlanBy`): after status 0, out
/// has a design that runs and shows the design of the text.
pub fn emit_statuses()
    ensures { (design board : List ℕ) (by : PlanBy) (call : Call)
        → IsCallOf (emit_course design board by) call
        → EmitStatuses design board by call }
{
    emitted_boards_show_designs();
}

/// What each status of `demo` says of its texts: after status 0, out has the summary of the trace of the unpartitioned
/// generated design, and with several workers each link has carried exactly its words of one good plan.
pub fn demo_statuses()
    ensures { (cells workers : ℕ) (call : Call) → IsCallOf (demo_course cells workers) call
        → DemoStatuses cells workers call }
{}

/// What each status of `--help` says.
pub fn help_statuses()
    ensures { (call : Call) → IsCallOf (course_of help) call → ConstantStatuses help_text call }
{}

/// What each status of `--version` says.
pub fn version_statuses()
    ensures { (call : Call) → IsCallOf (course_of version) call
        → ConstantStatuses version_text call }
{}

/// What each status says of words that spell no command.
pub fn usage_statuses()
    ensures { (place : ℕ) (call : Call) → IsCallOf (usage_course place) call
        → UsageStatuses place call }
{}

/// The place that the message of such words names: the first wrong word stands behind the longest front of the words that is
/// a front of some command's words.
pub fn wrong_words_have_their_place()
    ensures { (words : List (List ℕ)) → IsFirstWrong command_forms words
        (first_wrong command_forms words) }
{
    wrong_words_follow_the_longest_front();
}

/// What links have carried changes in no call but of a command that runs a board with several workers, however it ends.
pub fn unused_links_stay()
    ensures { (spelled : Spelled) (call : Call) → uses_links spelled ≡ false
        → IsCallOf (course_of spelled) call → call.after.links ≡ call.before.links }
{}

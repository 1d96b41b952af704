//! The public calls, and how they end.
ghost use Rattle.std.specs.Prelude.{◌≡◌, false, true, IfSome, MatchOption};
ghost use Rattle.vw_statuses.specs.Headline.{Headline};
ghost use Rattle.vw_statuses.specs.Promises.{Promise};
ghost use Rattle.vw_course.specs.Endings.{IsCallOf};
ghost use Rattle.vw_course.specs.Goes.{Goes, GoesOver, IsCalled, IsFollowed, MovedFrom, Unmoved, seen_call, seen_outside};
ghost use Rattle.vw_courses.specs.Commands.{course_of};
ghost use Rattle.vw_courses.specs.Messages.{vocabulary};
ghost use Rattle.vw_courses.specs.Steps.Commands.{plain_view, runtime_view};
ghost use Rattle.vw_courses.specs.Words.{spelled_by, needs_runtime};

use crate::check::check;
use crate::demo::{demo_by_one, demo_by_several};
use crate::emit::emit;
use crate::grade::grade;
use crate::help::{help, version};
use crate::nets::nets;
use crate::plan::plan;
use crate::replay::replay;
use crate::replay_wave::replay_wave;
use crate::report::write_report;
use crate::resume::resume;
use crate::run::{run_by_one, run_by_several};
use crate::save::save;
use crate::sim::sim;
use crate::wave::wave;
use std::alloc::Global;
use std::marker::Sync;
use std::sync::Wait;
use std::thread::Threads;
use vw_batches::Floor;
use vw_course::{Outside, report};
use vw_courses::{
    Command, PlainCommand, Reason, RuntimeCommand, Unfinished, command_of, probes_of,
};
use vw_files::{BoardFiles, PlanBy, Probes, Watched};
use vw_outside::{BurstGate, Name, Shelf, Sink};
use vw_prog::Fabric;
use vw_statuses::{headline, promises};

/// Carries out a command that needs no runtime, up to its message.
fn carry_out<S: Shelf, O: Sink>(
    alloc: Global,
    command: PlainCommand<'_>,
    outside: &mut Outside<'_, '_, S, O>,
) -> Result<(), Unfinished>
    ensures { Goes S.seen O.seen vocabulary (course_of (plain_view command.entry)) outside.old
        outside.new
        result }
{
    match command {
        PlainCommand::Sim {
            design,
            stimulus,
            unknown,
            until,
            probes,
        } => {
            let probes = probes_of(alloc, probes)?;
            let watched = Watched::make(alloc, probes, until)?;
            sim(alloc, design, watched.probes(), stimulus, unknown, outside)
        }
        PlainCommand::Wave {
            design,
            stimulus,
            unknown,
            until,
            probes,
        } => {
            let probes = probes_of(alloc, probes)?;
            let watched = Watched::make(alloc, probes, until)?;
            wave(alloc, design, watched.probes(), stimulus, unknown, outside)
        }
        PlainCommand::Replay(words) => {
            let probes = probes_of(alloc, words.probes)?;
            let watched = Watched::make(alloc, probes, words.until)?;
            replay(
                alloc,
                words.design,
                watched.probes(),
                words.state,
                words.stimulus,
                outside,
            )
        }
        PlainCommand::ReplayWave(words) => {
            let probes = probes_of(alloc, words.probes)?;
            let watched = Watched::make(alloc, probes, words.until)?;
            replay_wave(
                alloc,
                words.design,
                watched.probes(),
                words.state,
                words.stimulus,
                outside,
            )
        }
        PlainCommand::Nets { design, probes } => {
            let probes = probes_of(alloc, probes)?;
            let probes = Probes {
                nets: &probes,
                until: false,
            };
            nets(alloc, design, probes, outside)
        }
        PlainCommand::Check {
            design,
            board,
            plan,
            probes,
        } => {
            let probes = probes_of(alloc, probes)?;
            let files = BoardFiles {
                design,
                probes: Probes {
                    nets: &probes,
                    until: false,
                },
                board,
                plan: PlanBy::Given(plan),
            };
            check(alloc, &files, outside)
        }
        PlainCommand::Plan {
            design,
            board,
            chips,
            probes,
        } => {
            let probes = probes_of(alloc, probes)?;
            let files = BoardFiles {
                design,
                probes: Probes {
                    nets: &probes,
                    until: false,
                },
                board,
                plan: PlanBy::chips(chips),
            };
            plan(alloc, &files, outside)
        }
        PlainCommand::Run(words) => {
            let probes = probes_of(alloc, words.probes)?;
            let watched = Watched::make(alloc, probes, words.until)?;
            let files = BoardFiles {
                design: words.design,
                probes: watched.probes(),
                board: words.board,
                plan: PlanBy::file(words.plan),
            };
            run_by_one(alloc, &files, words.stimulus, words.unknown, outside)
        }
        PlainCommand::Report {
            design,
            board,
            plan,
            probes,
        } => {
            let probes = probes_of(alloc, probes)?;
            let files = BoardFiles {
                design,
                probes: Probes {
                    nets: &probes,
                    until: false,
                },
                board,
                plan: PlanBy::file(plan),
            };
            write_report(alloc, &files, outside)
        }
        PlainCommand::Emit {
            design,
            board,
            plan,
        } => {
            let files = BoardFiles {
                design,
                probes: Probes {
                    nets: &[],
                    until: false,
                },
                board,
                plan: PlanBy::file(plan),
            };
            emit(alloc, &files, outside)
        }
        PlainCommand::Demo(size) => demo_by_one(alloc, size, outside),
        PlainCommand::Help => help(outside),
        PlainCommand::Version => version(outside),
        PlainCommand::Nothing(place) => Err(Unfinished::Refused(Reason::Usage(place))),
    }
}

/// Carries out a command on a runtime, by the workers that it asks for, up to its message.
fn carry_out_together<R: Threads + Wait + Sync, S: Shelf, F: Fabric, G: BurstGate, O: Sink>(
    alloc: Global,
    command: RuntimeCommand<'_>,
    floor: &mut Floor<'_, '_, '_, R, F, G>,
    outside: &mut Outside<'_, '_, S, O>,
) -> Result<(), Unfinished>
    ensures fabric { floor.new.fabric.ghost_name ≡ floor.old.fabric.ghost_name }
    ensures goes { GoesOver S.seen O.seen vocabulary
        (MovedFrom (F.carried floor.old.fabric.now) (F.carried floor.new.fabric.now))
        (course_of (runtime_view command.entry)) outside.old outside.new result }
{
    match command {
        RuntimeCommand::Run { words, several } => {
            let probes = probes_of(alloc, words.probes)?;
            let watched = Watched::make(alloc, probes, words.until)?;
            let files = BoardFiles {
                design: words.design,
                probes: watched.probes(),
                board: words.board,
                plan: PlanBy::file(words.plan),
            };
            floor.workers = several.workers;
            run_by_several(alloc, &files, words.stimulus, words.unknown, floor, outside)
        }
        RuntimeCommand::Save {
            design,
            board,
            stimulus,
            plan,
            workers,
            unknown,
            every,
            until,
        } => {
            let watched = Watched::make(alloc, Vec::new(alloc), until)?;
            let files = BoardFiles {
                design,
                probes: watched.probes(),
                board,
                plan: PlanBy::file(plan),
            };
            floor.workers = workers;
            save(alloc, &files, stimulus, unknown, every, floor, outside)
        }
        RuntimeCommand::Resume {
            design,
            board,
            state,
            stimulus,
            plan,
            workers,
            until,
            probes,
        } => {
            let probes = probes_of(alloc, probes)?;
            let watched = Watched::make(alloc, probes, until)?;
            let files = BoardFiles {
                design,
                probes: watched.probes(),
                board,
                plan: PlanBy::file(plan),
            };
            floor.workers = workers;
            resume(alloc, &files, state, stimulus, floor, outside)
        }
        RuntimeCommand::Grade {
            design,
            stimulus,
            settings,
        } => grade(floor.rt, alloc, design, stimulus, settings, outside),
        RuntimeCommand::Demo { size, several } => {
            floor.workers = several.workers;
            demo_by_several(alloc, size, floor, outside)
        }
    }
}

/// Carries out a command that needs no runtime over this shelf and this sink, up to its message.
fn follow<S: Shelf, O: Sink>(
    alloc: Global,
    command: PlainCommand<'_>,
    shelf: &mut S,
    out: &mut O,
) -> Result<(), Unfinished>
    ensures { IsFollowed vocabulary Unmoved (course_of (plain_view command.entry)) (S.seen shelf.old)
        (O.seen out.old) (S.seen shelf.new) (O.seen out.new) result }
{
    let mut outside = Outside { shelf, out };
    carry_out(alloc, command, &mut outside)
}

/// The same on a runtime, by the workers that the command asks for.
fn follow_together<R: Threads + Wait + Sync, S: Shelf, F: Fabric, G: BurstGate, O: Sink>(
    alloc: Global,
    command: RuntimeCommand<'_>,
    floor: &mut Floor<'_, '_, '_, R, F, G>,
    shelf: &mut S,
    out: &mut O,
) -> Result<(), Unfinished>
    ensures fabric { floor.new.fabric.ghost_name ≡ floor.old.fabric.ghost_name }
    ensures goes { IsFollowed vocabulary
        (MovedFrom (F.carried floor.old.fabric.now) (F.carried floor.new.fabric.now))
        (course_of (runtime_view command.entry)) (S.seen shelf.old) (O.seen out.old)
        (S.seen shelf.new) (O.seen out.new) result }
{
    let mut outside = Outside { shelf, out };
    carry_out_together(alloc, command, floor, &mut outside)
}

/// Carries out a command that needs no runtime, and gives the exit status.
fn without_runtime<S: Shelf, O: Sink, E: Sink>(
    alloc: Global,
    command: PlainCommand<'_>,
    shelf: &mut S,
    out: &mut O,
    err: &mut E,
) -> u8
    ensures { IsCalled vocabulary (course_of (plain_view command.entry))
        (S.seen shelf.old) (O.seen out.old) (E.seen err.old)
        (S.seen shelf.new) (O.seen out.new) (E.seen err.new)
        result }
{
    match follow(alloc, command, shelf, out) {
        Ok(()) => 0,
        Err(unfinished) => report(alloc, &unfinished, err),
    }
}

/// Carries out a command on a runtime, by the workers that it asks for, and gives the exit status.
fn together<R: Threads + Wait + Sync, S: Shelf, F: Fabric, G: BurstGate, O: Sink, E: Sink>(
    alloc: Global,
    command: RuntimeCommand<'_>,
    floor: &mut Floor<'_, '_, '_, R, F, G>,
    shelf: &mut S,
    out: &mut O,
    err: &mut E,
) -> u8
    ensures fabric { floor.new.fabric.ghost_name ≡ floor.old.fabric.ghost_name }
    ensures called { IsCallOf (course_of (runtime_view command.entry)) (seen_call
        (seen_outside (S.seen shelf.old) (O.seen out.old) (F.carried floor.old.fabric.now))
        (E.seen err.old)
        (seen_outside (S.seen shelf.new) (O.seen out.new) (F.carried floor.new.fabric.now))
        (E.seen err.new)
        result) }
{
    match follow_together(alloc, command, floor, shelf, out) {
        Ok(()) => 0,
        Err(unfinished) => report(alloc, &unfinished, err),
    }
}

/// Carries out the command that the words after the program's name spell, in this thread and without a runtime, and gives
/// the exit status. So it returns, whatever is outside. It answers nothing exactly where the command needs a runtime, as
/// a grading, a saving, a resumption and one with several workers do; then nothing was read or written. Of all else it says
/// what `virtual_wires` says.
pub fn alone<S: Shelf, O: Sink, E: Sink>(
    alloc: Global,
    words: &[Name],
    shelf: &mut S,
    out: &mut O,
    err: &mut E,
) -> Option<u8>
    // It follows the course of the command, where this needs no runtime, and ends with the status and the message of its answer.
    ensures called { MatchOption result
        ((needs_runtime (spelled_by words.now) ≡ true)
        × (shelf.new ≡ shelf.old) × (out.new ≡ out.old) × (err.new ≡ err.old))
        (λ status. (needs_runtime (spelled_by words.now) ≡ false)
        × IsCalled vocabulary (course_of (spelled_by words.now))
        (S.seen shelf.old) (O.seen out.old) (E.seen err.old)
        (S.seen shelf.new) (O.seen out.new) (E.seen err.new)
        status) }

    // A run that ends with status 0 has written the trace of the unpartitioned design.
    ensures headline { IfSome result (Headline words.now (S.seen shelf.old).told (O.seen out.old)
        (O.seen out.new)) }

    // And each command has written what it promises.
    ensures promise { IfSome result (λ status. status ≡ 0
        → Promise (spelled_by words.now) (S.seen shelf.old).told (O.seen out.old) (O.seen out.new)) }
{
    headline();
    promises();
    match command_of(words) {
        Command::Plain(command) => Some(without_runtime(alloc, command, shelf, out, err)),
        Command::OnRuntime(_) => None,
    }
}

/// Carries out the command that the words after the program's name spell, and gives the exit status. After each
/// status but 0 one message line goes to `err`. What each status means, when it comes and what it leaves, `headline`,
/// `call_statuses` and the law of each command, like `sim_statuses`, say.
///
/// A run, a saving and a resumption with several workers have the nodes of the board in groups on threads of the runtime. The
/// words between them go over links of the fabric, and each group passes the gate before each of its bursts. That such a run
/// ends isn't promised; where it ends, all that is said here holds. With one worker they use no links. A grading shares its
/// faults among threads of the runtime, and moves no link. Every other call is one of `alone`.
pub fn virtual_wires<R: Threads + Wait + Sync, S: Shelf, F: Fabric, G: BurstGate, O: Sink, E: Sink>(
    rt: &R,
    alloc: Global,
    words: &[Name],
    shelf: &mut S,
    fabric: &mut F,
    gate: &G,
    out: &mut O,
    err: &mut E,
) -> u8
    // It follows the course of the command, and ends with the status and the message of its answer.
    ensures called { IsCallOf (course_of (spelled_by words.now)) (seen_call
        (seen_outside (S.seen shelf.old) (O.seen out.old) (F.carried fabric.old)) (E.seen err.old)
        (seen_outside (S.seen shelf.new) (O.seen out.new) (F.carried fabric.new)) (E.seen err.new)
        result) }

    // A run that ends with status 0 has written the trace of the unpartitioned design.
    ensures headline { Headline words.now (S.seen shelf.old).told (O.seen out.old) (O.seen out.new)
        result }

    // And each command has written what it promises.
    ensures promise { result ≡ 0
        → Promise (spelled_by words.now) (S.seen shelf.old).told (O.seen out.old) (O.seen out.new) }
{
    headline();
    promises();
    match command_of(words) {
        Command::Plain(command) => without_runtime(alloc, command, shelf, out, err),
        Command::OnRuntime(command) => {
            let mut floor = Floor::new(rt, fabric, gate, 1);
            together(alloc, command, &mut floor, shelf, out, err)
        }
    }
}

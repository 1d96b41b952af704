ghost use Rattle.std.specs.Prelude.{◌≡◌, ◌≤◌, IfOk, length, map, option_and_then, option_map, take};
ghost use Rattle.std.specs.Option.{option_map_or};
ghost use Rattle.vw_courses.specs.Words.{spelled_as, spelled_by, found_verb, sim_of, wave_of, grade_of, nets_of, check_of, plan_of, report_of, run_of, save_of, resume_of, emit_of, demo_of, cells_given};
ghost use Rattle.vw_courses.specs.Words.{plan_setting, replay_setting, demo as spelled_demo, probes_given, run as spelled_run, sim_with as spelled_sim_with, wave_with as spelled_wave_with, every_given, share_given, unknown_given, until_given, workers_given};
ghost use Rattle.vw_courses.specs.declared.forms.TheConstants.{MOST_PROBES};
ghost use Rattle.vw_courses.specs.Steps.Commands.{command_form, command_view, plain_view};
ghost use Rattle.vw_words.specs.Values.{name_given};

use crate::command::{
    Command, GradeSettings, Interval, PlainCommand, ReplayWords, RunWords, RuntimeCommand, Several,
};
use crate::forms::{
    CHIPS, COMMANDS, DEFAULT_WORKERS, EVERY, MOST_CELLS, MOST_PROBES, MOST_SHARES, PART, PLAN,
    PROBE, REPLAY, UNKNOWN, UNTIL, Verb, WORKERS,
};
use crate::size::Size;
use std::alloc::{AllocError, Global};
use vw_fault::Share;
use vw_outside::Name;
use vw_text::number_in;
use vw_words::{Entry, Names, first_wrong, number_or_zero, part_in};

/// How many workers the settings ask for. The form of the words lets no other number through than 1 to 64.
fn workers_in(settings: &[Name]) -> u64
    ensures { result ≡ workers_given settings.now }
{
    WORKERS.number(settings, DEFAULT_WORKERS).max(1)
}

/// These workers, where they are several.
fn several_in(settings: &[Name]) -> Option<Several>
    ensures { option_map_or (λ several. several.workers) result 1 ≡ workers_given settings.now }
{
    let workers = workers_in(settings);
    if workers > 1 {
        Some(Several { workers })
    } else {
        None
    }
}

/// Behind how many clocks the settings keep a state. The form of the words lets no other number through than 1 to
/// 4,294,967,295.
fn every_in(settings: &[Name]) -> Option<Interval>
    ensures { option_map (λ interval. interval.clocks) result ≡ every_given settings.now }
{
    match EVERY.name(settings) {
        Some(value) => Some(Interval {
            clocks: number_in(value).unwrap_or(0).max(1),
        }),
        None => None,
    }
}

/// The share of the faults that the settings ask for, where they do. The form of the words lets no other through than 1 to the
/// number of shares, and no more shares than 65,536.
fn share_in(settings: &[Name]) -> Option<Share>
    ensures { option_map (λ share. (share.number, share.shares)) result ≡ share_given settings.now }
{
    match PART.name(settings) {
        Some(text) => {
            let (number, count) = part_in(text);
            let shares = count.min(MOST_SHARES).max(1);
            Some(Share {
                number: number.min(shares).max(1),
                shares,
            })
        }
        None => None,
    }
}

/// A run of a design over a stimulus with these settings, from the start values or from a state on.
fn sim_with<'a>(design: &'a Name, stimulus: &'a Name, settings: &'a [Name]) -> PlainCommand<'a>
    ensures { plain_view result ≡ spelled_sim_with (name_given replay_setting settings.now)
        design.now stimulus.now (unknown_given settings.now) (until_given settings.now)
        (probes_given settings.now) }
{
    let until = UNTIL.name(settings);
    let probes = PROBE.names(settings);
    match REPLAY.name(settings) {
        Some(state) => PlainCommand::Replay(ReplayWords {
            design,
            stimulus,
            state,
            until,
            probes,
        }),
        None => PlainCommand::Sim {
            design,
            stimulus,
            unknown: UNKNOWN.bit(settings, false),
            until,
            probes,
        },
    }
}

/// The command that words of the form of `sim` spell.
fn sim_of(words: &[Name]) -> Option<Command<'_>>
    ensures { option_map command_view result ≡ sim_of words.now }
{
    match words {
        [_, design, stimulus, settings @ ..] => {
            Some(Command::Plain(sim_with(design, stimulus, settings)))
        }
        _ => None,
    }
}

/// The wave of a design over a stimulus with these settings, from the start values or from a state on.
fn wave_with<'a>(design: &'a Name, stimulus: &'a Name, settings: &'a [Name]) -> PlainCommand<'a>
    ensures { plain_view result ≡ spelled_wave_with (name_given replay_setting settings.now)
        design.now stimulus.now (unknown_given settings.now) (until_given settings.now)
        (probes_given settings.now) }
{
    let until = UNTIL.name(settings);
    let probes = PROBE.names(settings);
    match REPLAY.name(settings) {
        Some(state) => PlainCommand::ReplayWave(ReplayWords {
            design,
            stimulus,
            state,
            until,
            probes,
        }),
        None => PlainCommand::Wave {
            design,
            stimulus,
            unknown: UNKNOWN.bit(settings, false),
            until,
            probes,
        },
    }
}

/// The command that words of the form of `wave` spell.
fn wave_of(words: &[Name]) -> Option<Command<'_>>
    ensures { option_map command_view result ≡ wave_of words.now }
{
    match words {
        [_, design, stimulus, settings @ ..] => {
            Some(Command::Plain(wave_with(design, stimulus, settings)))
        }
        _ => None,
    }
}

/// The command that words of the form of `grade` spell.
fn grade_of(words: &[Name]) -> Option<Command<'_>>
    ensures { option_map command_view result ≡ grade_of words.now }
{
    match words {
        [_, design, stimulus, settings @ ..] => Some(Command::OnRuntime(RuntimeCommand::Grade {
            design,
            stimulus,
            settings: GradeSettings {
                workers: workers_in(settings),
                unknown: UNKNOWN.bit(settings, false),
                share: share_in(settings),
            },
        })),
        _ => None,
    }
}

/// The command that words of the form of `nets` spell.
fn nets_of(words: &[Name]) -> Option<Command<'_>>
    ensures { option_map command_view result ≡ nets_of words.now }
{
    match words {
        [_, design, settings @ ..] => Some(Command::Plain(PlainCommand::Nets {
            design,
            probes: PROBE.names(settings),
        })),
        _ => None,
    }
}

/// The command that words of the form of `check` spell.
fn check_of(words: &[Name]) -> Option<Command<'_>>
    ensures { option_map command_view result ≡ check_of words.now }
{
    match words {
        [_, design, board, plan, settings @ ..] => Some(Command::Plain(PlainCommand::Check {
            design,
            board,
            plan: plan.as_slice(),
            probes: PROBE.names(settings),
        })),
        _ => None,
    }
}

/// The command that words of the form of `plan` spell.
fn plan_of(words: &[Name]) -> Option<Command<'_>>
    ensures { option_map command_view result ≡ plan_of words.now }
{
    match words {
        [_, design, board, settings @ ..] => Some(Command::Plain(PlainCommand::Plan {
            design,
            board,
            chips: CHIPS.name(settings),
            probes: PROBE.names(settings),
        })),
        _ => None,
    }
}

/// The command that words of the form of `report` spell.
fn report_of(words: &[Name]) -> Option<Command<'_>>
    ensures { option_map command_view result ≡ report_of words.now }
{
    match words {
        [_, design, board, settings @ ..] => Some(Command::Plain(PlainCommand::Report {
            design,
            board,
            plan: PLAN.name(settings),
            probes: PROBE.names(settings),
        })),
        _ => None,
    }
}

/// A run over these files, with these settings.
fn run_with<'a>(
    design: &'a Name,
    board: &'a Name,
    stimulus: &'a Name,
    settings: &'a [Name],
) -> Command<'a>
    ensures { command_view result ≡ spelled_run design.now board.now stimulus.now
        (name_given plan_setting settings.now) (workers_given settings.now)
        (unknown_given settings.now) (until_given settings.now) (probes_given settings.now) }
{
    let words = RunWords {
        design,
        board,
        stimulus,
        plan: PLAN.name(settings),
        unknown: UNKNOWN.bit(settings, false),
        until: UNTIL.name(settings),
        probes: PROBE.names(settings),
    };
    match several_in(settings) {
        Some(several) => Command::OnRuntime(RuntimeCommand::Run { words, several }),
        None => Command::Plain(PlainCommand::Run(words)),
    }
}

/// The command that words of the form of `run` spell.
fn run_of(words: &[Name]) -> Option<Command<'_>>
    ensures { option_map command_view result ≡ run_of words.now }
{
    match words {
        [_, design, board, stimulus, settings @ ..] => {
            Some(run_with(design, board, stimulus, settings))
        }
        _ => None,
    }
}

/// The command that words of the form of `save` spell.
fn save_of(words: &[Name]) -> Option<Command<'_>>
    ensures { option_map command_view result ≡ save_of words.now }
{
    match words {
        [_, design, board, stimulus, settings @ ..] => {
            Some(Command::OnRuntime(RuntimeCommand::Save {
                design,
                board,
                stimulus,
                plan: PLAN.name(settings),
                workers: workers_in(settings),
                unknown: UNKNOWN.bit(settings, false),
                every: every_in(settings),
                until: UNTIL.name(settings),
            }))
        }
        _ => None,
    }
}

/// The command that words of the form of `resume` spell. The setting `unknown` has no effect.
fn resume_of(words: &[Name]) -> Option<Command<'_>>
    ensures { option_map command_view result ≡ resume_of words.now }
{
    match words {
        [_, design, board, state, stimulus, settings @ ..] => {
            Some(Command::OnRuntime(RuntimeCommand::Resume {
                design,
                board,
                state,
                stimulus,
                plan: PLAN.name(settings),
                workers: workers_in(settings),
                until: UNTIL.name(settings),
                probes: PROBE.names(settings),
            }))
        }
        _ => None,
    }
}

/// The command that words of the form of `emit` spell.
fn emit_of(words: &[Name]) -> Option<Command<'_>>
    ensures { option_map command_view result ≡ emit_of words.now }
{
    match words {
        [_, design, board, settings @ ..] => Some(Command::Plain(PlainCommand::Emit {
            design,
            board,
            plan: PLAN.name(settings),
        })),
        _ => None,
    }
}

/// The number of cells that a word spells. The form of the words lets no other number through.
fn size_of(word: &Name) -> Size
    ensures { result.cells ≡ cells_given word.now }
{
    Size {
        cells: number_or_zero(word).min(MOST_CELLS).max(1) as u32,
    }
}

/// A demo of this size, with these settings.
fn demo_with<'a>(size: Size, settings: &'a [Name]) -> Command<'a>
    ensures { command_view result ≡ spelled_demo size.cells (workers_given settings.now) }
{
    match several_in(settings) {
        Some(several) => Command::OnRuntime(RuntimeCommand::Demo { size, several }),
        None => Command::Plain(PlainCommand::Demo(size)),
    }
}

/// The command that words of the form of `demo` spell.
fn demo_of(words: &[Name]) -> Option<Command<'_>>
    ensures { option_map command_view result ≡ demo_of words.now }
{
    match words {
        [_, cells, settings @ ..] => Some(demo_with(size_of(cells), settings)),
        _ => None,
    }
}

/// What words of the form of a command spell.
fn spelled_as(verb: Verb, words: &[Name]) -> Option<Command<'_>>
    ensures { option_map command_view result ≡ spelled_as verb words.now }
{
    match verb {
        Verb::Sim => sim_of(words),
        Verb::Wave => wave_of(words),
        Verb::Grade => grade_of(words),
        Verb::Nets => nets_of(words),
        Verb::Check => check_of(words),
        Verb::Plan => plan_of(words),
        Verb::Report => report_of(words),
        Verb::Run => run_of(words),
        Verb::Save => save_of(words),
        Verb::Resume => resume_of(words),
        Verb::Emit => emit_of(words),
        Verb::Demo => demo_of(words),
        Verb::Help => Some(Command::Plain(PlainCommand::Help)),
        Verb::Version => Some(Command::Plain(PlainCommand::Version)),
    }
}

/// The command of a table whose form the words have, with its files and settings.
fn found_command<'w>(table: &[Entry<Verb>], words: &'w [Name]) -> Option<Command<'w>>
    ensures { option_map command_view result
        ≡ option_and_then (λ verb. spelled_as verb words.now) (found_verb words.now (map command_form table.now)) }
{
    spelled_as(vw_words::command_of(table, words)?, words)
}

/// The command that words spell.
pub fn command_of(words: &[Name]) -> Command<'_>
    ensures { spelled_by words.now ≡ command_view result }
{
    match found_command(&COMMANDS, words) {
        Some(command) => command,
        None => Command::Plain(PlainCommand::Nothing(first_wrong(&COMMANDS, words))),
    }
}

/// The nets that are watched, each in a word of its own. The form of the words lets no more through than these.
pub fn probes_of(alloc: Global, probes: Names<'_>) -> Result<Vec<Name>, AllocError>
    ensures values { IfOk result (λ list. list.items ≡ take MOST_PROBES probes.entry) }
    ensures few { IfOk result (λ list. length list.items ≤ 64) }
{
    let mut list = Vec::new(alloc);
    for probe in probes.take(MOST_PROBES) {
        list.push(Name::of(probe.to_vec(alloc)?))?;
    }
    Ok(list)
}

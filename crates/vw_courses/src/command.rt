//! Commands with their files and settings: those that one thread carries out, and those that need a runtime.
ghost use Rattle.std.specs.Prelude.{◌<◌};

use crate::size::Size;
use vw_fault::Share;
use vw_outside::Name;
use vw_words::Names;

/// Two workers or more, each with a thread of its own.
#[derive(Clone, Copy)]
pub struct Several {
    /// How many they are.
    pub workers: u64,
    ghost several: { 1 < workers },
}

/// A number of clocks, behind each of which a state is kept.
#[derive(Clone, Copy)]
pub struct Interval {
    /// How many they are.
    pub clocks: u64,
    ghost some: { 0 < clocks },
}

/// The settings of a grading.
#[derive(Clone, Copy)]
pub struct GradeSettings {
    /// How many workers grade.
    pub workers: u64,
    /// The value that free latches start at.
    pub unknown: bool,
    /// The share of the faults that is graded, where not all are.
    pub share: Option<Share>,
}

/// The files and settings of a run but for its workers.
#[derive(Drop)]
pub struct RunWords<'a> {
    pub design: &'a Name,
    pub board: &'a Name,
    pub stimulus: &'a Name,
    /// The name of the plan, where one is given.
    pub plan: Option<&'a [u8]>,
    /// The value that free latches start at.
    pub unknown: bool,
    /// The net whose first 1 ends the run, where one is named.
    pub until: Option<&'a [u8]>,
    /// The nets that are watched.
    pub probes: Names<'a>,
}

/// The files and settings of a replay.
#[derive(Drop)]
pub struct ReplayWords<'a> {
    pub design: &'a Name,
    pub stimulus: &'a Name,
    /// The name of the state from which the design goes on.
    pub state: &'a [u8],
    /// The net whose first 1 ends the run, where one is named.
    pub until: Option<&'a [u8]>,
    /// The nets that are watched.
    pub probes: Names<'a>,
}

/// A command that needs no runtime.
#[derive(Drop)]
pub enum PlainCommand<'a> {
    /// Runs a design over a stimulus, and writes its trace.
    Sim {
        design: &'a Name,
        stimulus: &'a Name,
        /// The value that free latches start at.
        unknown: bool,
        /// The net whose first 1 ends the run, where one is named.
        until: Option<&'a [u8]>,
        /// The nets that are watched.
        probes: Names<'a>,
    },
    /// Runs a design over a stimulus, and writes its wave.
    Wave {
        design: &'a Name,
        stimulus: &'a Name,
        /// The value that free latches start at.
        unknown: bool,
        /// The net whose first 1 ends the run, where one is named.
        until: Option<&'a [u8]>,
        /// The nets that are watched.
        probes: Names<'a>,
    },
    /// Runs a design from a state on over the rows of a stimulus from the state's clock on, and writes its trace. Each latch
    /// starts as the state has it.
    Replay(ReplayWords<'a>),
    /// The same, and writes its wave.
    ReplayWave(ReplayWords<'a>),
    /// Writes the netlist of a design.
    Nets {
        design: &'a Name,
        /// The nets that are watched.
        probes: Names<'a>,
    },
    /// Checks a plan of a design on a board, and writes its size.
    Check {
        design: &'a Name,
        board: &'a Name,
        /// The name of the plan.
        plan: &'a [u8],
        /// The nets that are watched.
        probes: Names<'a>,
    },
    /// Makes a plan of a design on a board, and writes its text.
    Plan {
        design: &'a Name,
        board: &'a Name,
        /// The name of the chips of the cells, where they are given.
        chips: Option<&'a [u8]>,
        /// The nets that are watched.
        probes: Names<'a>,
    },
    /// Writes a plan of a design on a board in numbers and names.
    Report {
        design: &'a Name,
        board: &'a Name,
        /// The name of the plan, where one is given.
        plan: Option<&'a [u8]>,
        /// The nets that are watched.
        probes: Names<'a>,
    },
    /// Runs a design on a board over a stimulus by one worker, and writes its trace.
    Run(RunWords<'a>),
    /// Writes a planned board as a design.
    Emit {
        design: &'a Name,
        board: &'a Name,
        /// The name of the plan, where one is given.
        plan: Option<&'a [u8]>,
    },
    /// Runs a generated design of this size on a generated board by one worker, and writes a summary of its trace.
    Demo(Size),
    /// Writes how the program is called.
    Help,
    /// Writes the version of the program.
    Version,
    /// No command; the number of the first wrong word, from 1.
    Nothing(u64),
}

/// A command that needs a runtime, with its threads.
#[derive(Drop)]
pub enum RuntimeCommand<'a> {
    /// Grades a stimulus: writes which stuck nets of a design it doesn't reveal.
    Grade {
        design: &'a Name,
        stimulus: &'a Name,
        settings: GradeSettings,
    },
    /// Runs a design on a board over a stimulus by several workers, and writes its trace.
    Run {
        words: RunWords<'a>,
        /// Those that run the nodes of the board.
        several: Several,
    },
    /// Runs a design on a board over a stimulus, and writes the state that it comes to, and those behind each so many clocks.
    Save {
        design: &'a Name,
        board: &'a Name,
        stimulus: &'a Name,
        /// The name of the plan, where one is given.
        plan: Option<&'a [u8]>,
        /// How many workers run the nodes of the board.
        workers: u64,
        /// The value that free latches start at.
        unknown: bool,
        /// Behind how many clocks a state is written, where this is given.
        every: Option<Interval>,
        /// The net whose first 1 ends the run, where one is named.
        until: Option<&'a [u8]>,
    },
    /// Runs a design on a board over a stimulus from a state on, and writes its trace. Each latch starts as the state has
    /// it.
    Resume {
        design: &'a Name,
        board: &'a Name,
        state: &'a Name,
        stimulus: &'a Name,
        /// The name of the plan, where one is given.
        plan: Option<&'a [u8]>,
        /// How many workers run the nodes of the board.
        workers: u64,
        /// The net whose first 1 ends the run, where one is named.
        until: Option<&'a [u8]>,
        /// The nets that are watched.
        probes: Names<'a>,
    },
    /// Runs a generated design on a generated board by several workers, and writes a summary of its trace.
    Demo {
        size: Size,
        /// Those that run the nodes of the board.
        several: Several,
    },
}

/// What words spell: a command, with the names of its files and its settings, or none.
#[derive(Drop)]
pub enum Command<'a> {
    /// One that needs no runtime, which is also what words that spell no command are.
    Plain(PlainCommand<'a>),
    /// One that needs a runtime: each grading, saving and resumption, and what runs a board by several workers.
    OnRuntime(RuntimeCommand<'a>),
}

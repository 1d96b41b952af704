//! The words of each command: its keyword, its files, and its settings.
use vw_words::{Entry, Form, Place, Setting, Value};

/// The commands.
#[derive(Clone, Copy)]
pub enum Verb {
    Sim,
    Wave,
    Grade,
    Nets,
    Check,
    Plan,
    Report,
    Run,
    Save,
    Resume,
    Emit,
    Demo,
    Help,
    Version,
}

/// The name of a file.
const FILE: Place = Place::Any(Value::Name);

/// The value that free latches start at.
pub const UNKNOWN: Setting = Setting {
    name: b"unknown",
    value: Value::Bit,
    times: 1,
};

/// How many nets may be watched.
pub const MOST_PROBES: usize = 64;

/// A net that is watched.
pub const PROBE: Setting = Setting {
    name: b"probe",
    value: Value::Name,
    times: MOST_PROBES,
};

/// The plan to run by.
pub const PLAN: Setting = Setting {
    name: b"plan",
    value: Value::Name,
    times: 1,
};

/// The chip of each cell, for which a plan is made.
pub const CHIPS: Setting = Setting {
    name: b"chips",
    value: Value::Name,
    times: 1,
};

/// How many workers run the nodes of a board, or grade a design.
pub const WORKERS: Setting = Setting {
    name: b"workers",
    value: Value::Number { least: 1, most: 64 },
    times: 1,
};

/// Behind how many clocks a state is kept.
pub const EVERY: Setting = Setting {
    name: b"every",
    value: Value::Number {
        least: 1,
        most: 4_294_967_295,
    },
    times: 1,
};

/// The state from which a design goes on.
pub const REPLAY: Setting = Setting {
    name: b"replay",
    value: Value::Name,
    times: 1,
};

/// A net that ends a run, behind the first clock in which it is 1.
pub const UNTIL: Setting = Setting {
    name: b"until",
    value: Value::Name,
    times: 1,
};

/// How many shares the faults are cut into at most.
pub const MOST_SHARES: u64 = 65_536;

/// A share of the faults that are graded, of so many.
pub const PART: Setting = Setting {
    name: b"part",
    value: Value::Part { most: 65_536 },
    times: 1,
};

/// How many do where none are given.
pub const DEFAULT_WORKERS: u64 = 4;

/// How many cells a demo has at most.
pub const MOST_CELLS: u64 = 20_000;

/// sim DESIGN STIM [unknown=0|1] [replay=STATE] [until=NET] [probe=NET]..
const SIM: Form = Form {
    places: &[Place::Keyword(b"sim"), FILE, FILE],
    settings: &[UNKNOWN, REPLAY, UNTIL, PROBE],
};

/// wave DESIGN STIM [unknown=0|1] [replay=STATE] [until=NET] [probe=NET]..
const WAVE: Form = Form {
    places: &[Place::Keyword(b"wave"), FILE, FILE],
    settings: &[UNKNOWN, REPLAY, UNTIL, PROBE],
};

/// grade DESIGN STIM [workers=N] [unknown=0|1] [part=K/N]
const GRADE: Form = Form {
    places: &[Place::Keyword(b"grade"), FILE, FILE],
    settings: &[WORKERS, UNKNOWN, PART],
};

/// nets DESIGN [probe=NET]..
const NETS: Form = Form {
    places: &[Place::Keyword(b"nets"), FILE],
    settings: &[PROBE],
};

/// check DESIGN BOARD PLAN [probe=NET]..
const CHECK: Form = Form {
    places: &[Place::Keyword(b"check"), FILE, FILE, FILE],
    settings: &[PROBE],
};

/// plan DESIGN BOARD [chips=FILE] [probe=NET]..
const MAKE_PLAN: Form = Form {
    places: &[Place::Keyword(b"plan"), FILE, FILE],
    settings: &[CHIPS, PROBE],
};

/// report DESIGN BOARD [plan=FILE] [probe=NET]..
const REPORT: Form = Form {
    places: &[Place::Keyword(b"report"), FILE, FILE],
    settings: &[PLAN, PROBE],
};

/// run DESIGN BOARD STIM [plan=FILE] [workers=N] [unknown=0|1] [until=NET] [probe=NET]..
const RUN: Form = Form {
    places: &[Place::Keyword(b"run"), FILE, FILE, FILE],
    settings: &[PLAN, WORKERS, UNKNOWN, UNTIL, PROBE],
};

/// save DESIGN BOARD STIM [plan=FILE] [workers=N] [unknown=0|1] [every=N] [until=NET]
const SAVE: Form = Form {
    places: &[Place::Keyword(b"save"), FILE, FILE, FILE],
    settings: &[PLAN, WORKERS, UNKNOWN, EVERY, UNTIL],
};

/// resume DESIGN BOARD STATE STIM [plan=FILE] [workers=N] [unknown=0|1] [until=NET] [probe=NET]..
const RESUME: Form = Form {
    places: &[Place::Keyword(b"resume"), FILE, FILE, FILE, FILE],
    settings: &[PLAN, WORKERS, UNKNOWN, UNTIL, PROBE],
};

/// emit DESIGN BOARD [plan=FILE]
const EMIT: Form = Form {
    places: &[Place::Keyword(b"emit"), FILE, FILE],
    settings: &[PLAN],
};

/// demo CELLS [workers=N]
const DEMO: Form = Form {
    places: &[
        Place::Keyword(b"demo"),
        Place::Any(Value::Number {
            least: 1,
            most: MOST_CELLS,
        }),
    ],
    settings: &[WORKERS],
};

/// --help
const HELP: Form = Form {
    places: &[Place::Keyword(b"--help")],
    settings: &[],
};

/// --version
const VERSION: Form = Form {
    places: &[Place::Keyword(b"--version")],
    settings: &[],
};

/// Each command with the form of its words.
pub const COMMANDS: [Entry<Verb>; 14] = [
    Entry {
        command: Verb::Sim,
        form: SIM,
    },
    Entry {
        command: Verb::Wave,
        form: WAVE,
    },
    Entry {
        command: Verb::Grade,
        form: GRADE,
    },
    Entry {
        command: Verb::Nets,
        form: NETS,
    },
    Entry {
        command: Verb::Check,
        form: CHECK,
    },
    Entry {
        command: Verb::Plan,
        form: MAKE_PLAN,
    },
    Entry {
        command: Verb::Report,
        form: REPORT,
    },
    Entry {
        command: Verb::Run,
        form: RUN,
    },
    Entry {
        command: Verb::Save,
        form: SAVE,
    },
    Entry {
        command: Verb::Resume,
        form: RESUME,
    },
    Entry {
        command: Verb::Emit,
        form: EMIT,
    },
    Entry {
        command: Verb::Demo,
        form: DEMO,
    },
    Entry {
        command: Verb::Help,
        form: HELP,
    },
    Entry {
        command: Verb::Version,
        form: VERSION,
    },
];

//! Words against a table of forms, and the values of settings among them.
use std::alloc::Global;
use std::process::Abort;
use std::test::Fail;
use vw_outside::Name;
use vw_sample_calls::names_of;
use vw_words::{Entry, Form, Place, Setting, Value, command_of, first_wrong, number_or_zero};

const NAME: Place = Place::Any(Value::Name);

const WORKERS: Setting = Setting {
    name: b"workers",
    value: Value::Number { least: 1, most: 64 },
    times: 1,
};

const UNKNOWN: Setting = Setting {
    name: b"unknown",
    value: Value::Bit,
    times: 1,
};

const PLAN: Setting = Setting {
    name: b"plan",
    value: Value::Name,
    times: 1,
};

const PROBE: Setting = Setting {
    name: b"probe",
    value: Value::Name,
    times: 3,
};

/// A form with names and settings, one with a number and a setting, and one with a keyword alone, by their numbers.
const FORMS: &[Entry<u8>] = &[
    Entry {
        command: 0,
        form: Form {
            places: &[Place::Keyword(b"run"), NAME, NAME],
            settings: &[PLAN, WORKERS, UNKNOWN, PROBE],
        },
    },
    Entry {
        command: 1,
        form: Form {
            places: &[
                Place::Keyword(b"demo"),
                Place::Any(Value::Number {
                    least: 1,
                    most: 20_000,
                }),
            ],
            settings: &[WORKERS],
        },
    },
    Entry {
        command: 2,
        form: Form {
            places: &[Place::Keyword(b"demo")],
            settings: &[],
        },
    },
];

/// Asserts the form of some words and the place of the first wrong one.
fn is_found(rt: &impl Abort, words: &[&str], found: (Option<u8>, u64), wanted: (Option<u8>, u64)) {
    assert_eq!(rt; found, wanted, "{words:?}");
}

/// Asserts, for each of these lists of words, the number of the form that they have, or that they have none, and the
/// place of the first wrong word.
fn forms_are_found(
    rt: &impl Abort,
    alloc: Global,
    table: &[(&[&str], Option<u8>, u64)],
) -> Result<(), Fail> {
    for (words, form, wrong) in table {
        let names = names_of(alloc, words)?;
        let found = (command_of(FORMS, &names), first_wrong(FORMS, &names));
        is_found(rt, words, found, (*form, *wrong));
    }
    Ok(())
}

#[test]
fn words_have_the_first_form_that_fits(rt: HostRuntime) -> Result<(), Fail> {
    const TABLE: &[(&[&str], Option<u8>, u64)] = &[
        (&["run", "d", "s"], Some(0), 4),
        (&["run", "unknown=0", "s"], Some(0), 4),
        (&["run", "d", "s", "plan=p"], Some(0), 5),
        (
            &["run", "d", "s", "workers=64", "plan=p", "unknown=1"],
            Some(0),
            7,
        ),
        (
            &[
                "run",
                "d",
                "s",
                "probe=a",
                "unknown=0",
                "probe=b",
                "probe=a",
            ],
            Some(0),
            8,
        ),
        (&["run", "d", "s", "plan=plan=p"], Some(0), 5),
        (&["demo", "20000", "workers=1"], Some(1), 4),
        (&["demo"], Some(2), 2),
    ];
    forms_are_found(&rt, rt.alloc(), TABLE)
}

#[test]
fn the_first_wrong_word_has_its_place(rt: HostRuntime) -> Result<(), Fail> {
    const TABLE: &[(&[&str], Option<u8>, u64)] = &[
        (&[], None, 1),
        (&["fly", "d", "s"], None, 1),
        (&["run"], None, 2),
        (&["run", "d"], None, 3),
        (&["run", "d", ""], None, 3),
        (&["run", "d", "s", "x"], None, 4),
        (&["run", "d", "s", "plan="], None, 4),
        (&["run", "d", "s", "plan"], None, 4),
        (&["run", "d", "s", "workers=0"], None, 4),
        (&["run", "d", "s", "workers=65"], None, 4),
        (&["run", "d", "s", "workers=01"], None, 4),
        (&["run", "d", "s", "workers=18446744073709551616"], None, 4),
        (&["run", "d", "s", "unknown=0", "unknown=0"], None, 5),
        (
            &["run", "d", "s", "probe=a", "probe=b", "probe=c", "probe=d"],
            None,
            7,
        ),
        (&["demo", "20001"], None, 2),
        (&["demo", "1", "x"], None, 3),
    ];
    forms_are_found(&rt, rt.alloc(), TABLE)
}

/// Whether these probes, and no others, are given.
fn are_probes(words: &[Name], wanted: &[&[u8]]) -> bool {
    let mut probes = PROBE.names(words);
    for probe in wanted {
        if probes.next() != Some(*probe) {
            return false;
        }
    }
    probes.next().is_none()
}

/// Whether the plan, the number of workers and the bit are these, where 4 and the other bit stand for what isn't given.
fn are_settings(words: &[Name], plan: Option<&[u8]>, workers: u64, bit: bool) -> bool {
    PLAN.name(words) == plan
        && WORKERS.number(words, 4) == workers
        && UNKNOWN.bit(words, !bit) == bit
}

#[test]
fn settings_have_their_values(rt: HostRuntime) -> Result<(), Fail> {
    const WORDS: &[&str] = &["probe=b/c", "workers=8", "plan=a=b", "unknown=1", "probe=a"];
    let words = names_of(rt.alloc(), WORDS)?;
    assert!(&rt; are_probes(&words, &[b"b/c", b"a"]));
    assert!(&rt; are_settings(&words, Some(b"a=b"), 8, true));
    Ok(())
}

/// Whether none of the settings is given, so that each has its default.
fn are_defaults(words: &[Name]) -> bool {
    WORKERS.number(words, 4) == 4
        && UNKNOWN.bit(words, true)
        && PLAN.name(words).is_none()
        && PROBE.names(words).next().is_none()
}

/// The number that the first word spells.
fn first_number(words: &[Name]) -> u64 {
    match words.first() {
        Some(word) => number_or_zero(word),
        None => 0,
    }
}

#[test]
fn settings_that_are_not_given_have_their_defaults(rt: HostRuntime) -> Result<(), Fail> {
    let words = names_of(rt.alloc(), &["7"])?;
    assert!(&rt; are_defaults(&words));
    assert_eq!(&rt; first_number(&words), 7);
    Ok(())
}

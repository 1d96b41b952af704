//! Commands over files of the machine, by the adapters that the program has.
use super::*;
use std::{fs, process};
use vw_outside::{ErrSink, FileShelf, OutSink};
use vw_sample_calls::names_of;
use vw_top::virtual_wires;

/// A chip with room for one of the toggle's two cells.
const SMALL: &str = "board 1\nchips 1\ncells 1\nsettle 0\npins 4\nlink 0 1 1\nlink 1 0 1\n";

/// The toggle's plan with the table's value sent before its inputs are there.
const EARLY: &str =
    "plan 1 2 4 2\nchips 1 2\nwire 0 1 1\nhop 0 1 0 0\nwire 1 2 1\nhop 1 2 0 0\nwire 2 0 1\nhop 2 0 0 0\nwire 2 1 1\nhop 2 1 0 0\nend\n";

/// The exit status of these words, with workers on these threads.
fn status<T: Threads + Wait + Copy + Send + Sync>(
    rt: &HostRuntime,
    threads: &T,
    words: &[&str],
) -> Result<u8, AllocError> {
    let alloc = rt.alloc();
    let names = names_of(alloc, words)?;
    let mut shelf = FileShelf::new(alloc, rt);
    let mut out = OutSink::new(rt);
    let mut err = ErrSink::new(rt);
    let mut links = Links::new(*threads, false);
    Ok(virtual_wires(
        threads,
        alloc,
        &names,
        &mut shelf,
        &mut links,
        &OpenGate::new(),
        &mut out,
        &mut err,
    ))
}

/// Where the file of the text with this number lies.
fn path(rt: &HostRuntime, number: usize) -> Result<String, AllocError> {
    let process = process::id(rt.process());
    format!(in rt.alloc(); "/tmp/vwires_{process}_{number}")
}

/// Writes these texts to files of the machine.
fn write_files(rt: &HostRuntime, texts: &[&str]) -> Result<(), Fail> {
    for (number, text) in texts.iter().enumerate() {
        let path = path(rt, number)?;
        fs::write(rt, path.as_str(), text.as_bytes())?;
    }
    Ok(())
}

/// Removes so many files.
fn remove_files(rt: &HostRuntime, count: usize) -> Result<(), Fail> {
    for number in 0..count {
        let path = path(rt, number)?;
        fs::remove_file(rt, path.as_str())?;
    }
    Ok(())
}

/// The exit status of a command over so many of these files.
fn status_of<T: Threads + Wait + Copy + Send + Sync>(
    rt: &HostRuntime,
    threads: &T,
    command: &str,
    count: usize,
) -> Result<u8, AllocError> {
    let first = path(rt, 0)?;
    let second = path(rt, 1)?;
    let third = path(rt, 2)?;
    let fourth = path(rt, 3)?;
    let words = [
        command,
        first.as_str(),
        second.as_str(),
        third.as_str(),
        fourth.as_str(),
    ];
    status(
        rt,
        threads,
        words.get(..count.saturating_add(1)).unwrap_or(&words),
    )
}

/// Fails unless a command over files with each of these lists of texts has its status.
fn files_have_statuses<T: Threads + Wait + Copy + Send + Sync>(
    rt: &HostRuntime,
    threads: &T,
    table: &[(&str, &[&str], u8)],
) -> Result<(), Fail> {
    for (command, texts, wanted) in table {
        write_files(rt, texts)?;
        let found = status_of(rt, threads, command, texts.len())?;
        remove_files(rt, texts.len())?;
        is_status(found, *wanted, command)?;
    }
    Ok(())
}

/// Fails unless each of these lists of words has its status.
fn words_have_statuses<T: Threads + Wait + Copy + Send + Sync>(
    rt: &HostRuntime,
    threads: &T,
    table: &[(&[&str], u8)],
) -> Result<(), Fail> {
    for (words, wanted) in table {
        let found = status(rt, threads, words)?;
        is_status(found, *wanted, words.first().copied().unwrap_or("no words"))?;
    }
    Ok(())
}

#[test]
fn designs_and_stimuli_in_files_have_their_statuses(rt: HostRuntime) -> Result<(), Fail> {
    const TABLE: &[(&str, &[&str], u8)] = &[
        ("sim", &[TOGGLE, "1\n1\n0\n"], 0),
        ("sim", &["no design\n", "1\n"], 1),
        ("sim", &[TOGGLE, "10\n"], 5),
    ];
    files_have_statuses(&rt, &rt, TABLE)
}

#[test]
fn boards_and_plans_in_files_have_their_statuses(rt: HostRuntime) -> Result<(), Fail> {
    const TABLE: &[(&str, &[&str], u8)] = &[
        ("check", &[TOGGLE, TRIANGLE, TOGGLE_PLAN], 0),
        ("check", &[TOGGLE, "board 2\n", TOGGLE_PLAN], 3),
        ("check", &[TOGGLE, TRIANGLE, EARLY], 4),
        ("plan", &[TOGGLE, TRIANGLE], 0),
        ("plan", &[TOGGLE, SMALL], 6),
    ];
    files_have_statuses(&rt, &rt, TABLE)
}

/// By four workers, since no word says how many.
#[test]
fn a_run_over_files_has_its_status(rt: HostRuntime) -> Result<(), Fail> {
    const TABLE: &[(&str, &[&str], u8)] = &[("run", &[TOGGLE, TRIANGLE, "1\n1\n0\n"], 0)];
    files_have_statuses(&rt, &rt, TABLE)
}

#[test]
fn wrong_words_and_a_folder_have_their_statuses(rt: HostRuntime) -> Result<(), Fail> {
    const TABLE: &[(&[&str], u8)] = &[(&["fly"], 2), (&["sim", "/tmp", "/dev/null"], 7)];
    words_have_statuses(&rt, &rt, TABLE)
}

/// A missing file, an empty name, and a folder in place of each text.
#[test]
fn what_is_no_file_is_a_read_fault(rt: HostRuntime) -> Result<(), Fail> {
    const TABLE: &[(&[&str], u8)] = &[
        (&["sim", "/tmp/vwires_none", "/dev/null"], 7),
        (&["check", "/", "/", "/"], 7),
        (&["grade", "/tmp", "/tmp"], 7),
    ];
    words_have_statuses(&rt, &rt, TABLE)
}

/// The commands on boards and states that came last.
#[test]
fn states_and_emitted_boards_in_files_have_their_statuses(rt: HostRuntime) -> Result<(), Fail> {
    const TABLE: &[(&str, &[&str], u8)] = &[
        ("save", &[TOGGLE, TRIANGLE, "1\n"], 0),
        ("resume", &[TOGGLE, TRIANGLE, "state 1 1 1 1\n", "1\n"], 0),
        ("resume", &[TOGGLE, TRIANGLE, "state 1 01 1 1\n", "1\n"], 11),
        ("emit", &[TOGGLE, TRIANGLE], 0),
        ("wave", &[TOGGLE, "1\n"], 0),
        ("grade", &[TOGGLE, "1\n"], 0),
    ];
    files_have_statuses(&rt, &rt, TABLE)
}
